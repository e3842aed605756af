//! Functions and operators over numeric (manual 9.3).

/// Functions.
pub const FUNCTIONS: &str = "\
function,add_numeric_numeric,numeric numeric,f,numeric,immutable,t,add_numeric_numeric
function,sub_numeric_numeric,numeric numeric,f,numeric,immutable,t,sub_numeric_numeric
function,mul_numeric_numeric,numeric numeric,f,numeric,immutable,t,mul_numeric_numeric
function,div_numeric_numeric,numeric numeric,f,numeric,immutable,t,div_numeric_numeric
function,mod,numeric numeric,f,numeric,immutable,t,mod_numeric_numeric
function,eq_numeric_numeric,numeric numeric,f,bool,immutable,t,eq_numeric_numeric
function,ne_numeric_numeric,numeric numeric,f,bool,immutable,t,ne_numeric_numeric
function,lt_numeric_numeric,numeric numeric,f,bool,immutable,t,lt_numeric_numeric
function,le_numeric_numeric,numeric numeric,f,bool,immutable,t,le_numeric_numeric
function,gt_numeric_numeric,numeric numeric,f,bool,immutable,t,gt_numeric_numeric
function,ge_numeric_numeric,numeric numeric,f,bool,immutable,t,ge_numeric_numeric
function,neg_numeric,numeric,f,numeric,immutable,t,neg_numeric
function,plus_numeric,numeric,f,numeric,immutable,t,plus_numeric
function,abs,numeric,f,numeric,immutable,t,abs_numeric
function,sign,numeric,f,numeric,immutable,t,sign_numeric
function,ceil,numeric,f,numeric,immutable,t,ceil_numeric
function,ceiling,numeric,f,numeric,immutable,t,ceil_numeric
function,floor,numeric,f,numeric,immutable,t,floor_numeric
function,round,numeric,f,numeric,immutable,t,round_numeric
function,round,numeric int4,f,numeric,immutable,t,round_numeric_int4
function,trunc,numeric,f,numeric,immutable,t,trunc_numeric
function,trunc,numeric int4,f,numeric,immutable,t,trunc_numeric_int4
function,div,numeric numeric,f,numeric,immutable,t,intdiv_numeric_numeric
function,scale,numeric,f,int4,immutable,t,scale_numeric
function,trim_scale,numeric,f,numeric,immutable,t,trim_scale_numeric
function,numeric,int2,f,numeric,immutable,t,numeric_int2
function,numeric,int4,f,numeric,immutable,t,numeric_int4
function,numeric,int8,f,numeric,immutable,t,numeric_int8
function,int2,numeric,f,int2,immutable,t,int2_numeric
function,int4,numeric,f,int4,immutable,t,int4_numeric
function,int8,numeric,f,int8,immutable,t,int8_numeric
";

/// Operators.
pub const OPERATORS: &str = "\
operator,+,numeric,numeric,add_numeric_numeric
operator,-,numeric,numeric,sub_numeric_numeric
operator,*,numeric,numeric,mul_numeric_numeric
operator,/,numeric,numeric,div_numeric_numeric
operator,%,numeric,numeric,mod
operator,=,numeric,numeric,eq_numeric_numeric
operator,<>,numeric,numeric,ne_numeric_numeric
operator,<,numeric,numeric,lt_numeric_numeric
operator,<=,numeric,numeric,le_numeric_numeric
operator,>,numeric,numeric,gt_numeric_numeric
operator,>=,numeric,numeric,ge_numeric_numeric
operator,-,,numeric,neg_numeric
operator,+,,numeric,plus_numeric
operator,@,,numeric,abs
";
