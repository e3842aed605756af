//! Functions and operators over ranges (manual 9.20).

/// Functions.
pub const FUNCTIONS: &str = "\
function,int4range,int4 int4,f,int4range,immutable,f,int4range_int4_int4
function,int4range,int4 int4 text,f,int4range,immutable,f,int4range_int4_int4_text
function,int8range,int8 int8,f,int8range,immutable,f,int8range_int8_int8
function,int8range,int8 int8 text,f,int8range,immutable,f,int8range_int8_int8_text
function,daterange,date date,f,daterange,immutable,f,daterange_date_date
function,daterange,date date text,f,daterange,immutable,f,daterange_date_date_text
function,eq_anyrange_anyrange,anyrange anyrange,f,bool,immutable,t,eq_anyrange_anyrange
function,ne_anyrange_anyrange,anyrange anyrange,f,bool,immutable,t,ne_anyrange_anyrange
function,lt_anyrange_anyrange,anyrange anyrange,f,bool,immutable,t,lt_anyrange_anyrange
function,le_anyrange_anyrange,anyrange anyrange,f,bool,immutable,t,le_anyrange_anyrange
function,gt_anyrange_anyrange,anyrange anyrange,f,bool,immutable,t,gt_anyrange_anyrange
function,ge_anyrange_anyrange,anyrange anyrange,f,bool,immutable,t,ge_anyrange_anyrange
function,contains_anyrange_anyrange,anyrange anyrange,f,bool,immutable,t,contains_anyrange_anyrange
function,contains_anyrange_anyelement,anyrange anyelement,f,bool,immutable,t,contains_anyrange_anyelement
function,contained_anyrange_anyrange,anyrange anyrange,f,bool,immutable,t,contained_anyrange_anyrange
function,contained_anyelement_anyrange,anyelement anyrange,f,bool,immutable,t,contained_anyelement_anyrange
function,overlaps_anyrange_anyrange,anyrange anyrange,f,bool,immutable,t,overlaps_anyrange_anyrange
function,before_anyrange_anyrange,anyrange anyrange,f,bool,immutable,t,before_anyrange_anyrange
function,after_anyrange_anyrange,anyrange anyrange,f,bool,immutable,t,after_anyrange_anyrange
function,notright_anyrange_anyrange,anyrange anyrange,f,bool,immutable,t,notright_anyrange_anyrange
function,notleft_anyrange_anyrange,anyrange anyrange,f,bool,immutable,t,notleft_anyrange_anyrange
function,adjacent_anyrange_anyrange,anyrange anyrange,f,bool,immutable,t,adjacent_anyrange_anyrange
function,union_anyrange_anyrange,anyrange anyrange,f,anyrange,immutable,t,union_anyrange_anyrange
function,intersect_anyrange_anyrange,anyrange anyrange,f,anyrange,immutable,t,intersect_anyrange_anyrange
function,minus_anyrange_anyrange,anyrange anyrange,f,anyrange,immutable,t,minus_anyrange_anyrange
function,range_merge,anyrange anyrange,f,anyrange,immutable,t,range_merge_anyrange_anyrange
function,lower,anyrange,f,anyelement,immutable,t,lower_anyrange
function,upper,anyrange,f,anyelement,immutable,t,upper_anyrange
function,isempty,anyrange,f,bool,immutable,t,isempty_anyrange
function,lower_inc,anyrange,f,bool,immutable,t,lower_inc_anyrange
function,upper_inc,anyrange,f,bool,immutable,t,upper_inc_anyrange
function,lower_inf,anyrange,f,bool,immutable,t,lower_inf_anyrange
function,upper_inf,anyrange,f,bool,immutable,t,upper_inf_anyrange
";

/// Operators.
pub const OPERATORS: &str = "\
operator,=,anyrange,anyrange,eq_anyrange_anyrange
operator,<>,anyrange,anyrange,ne_anyrange_anyrange
operator,<,anyrange,anyrange,lt_anyrange_anyrange
operator,<=,anyrange,anyrange,le_anyrange_anyrange
operator,>,anyrange,anyrange,gt_anyrange_anyrange
operator,>=,anyrange,anyrange,ge_anyrange_anyrange
operator,@>,anyrange,anyrange,contains_anyrange_anyrange
operator,@>,anyrange,anyelement,contains_anyrange_anyelement
operator,<@,anyrange,anyrange,contained_anyrange_anyrange
operator,<@,anyelement,anyrange,contained_anyelement_anyrange
operator,&&,anyrange,anyrange,overlaps_anyrange_anyrange
operator,<<,anyrange,anyrange,before_anyrange_anyrange
operator,>>,anyrange,anyrange,after_anyrange_anyrange
operator,&<,anyrange,anyrange,notright_anyrange_anyrange
operator,&>,anyrange,anyrange,notleft_anyrange_anyrange
operator,-|-,anyrange,anyrange,adjacent_anyrange_anyrange
operator,+,anyrange,anyrange,union_anyrange_anyrange
operator,*,anyrange,anyrange,intersect_anyrange_anyrange
operator,-,anyrange,anyrange,minus_anyrange_anyrange
";
