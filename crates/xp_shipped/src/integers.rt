//! Functions and operators over integers and truth values (manual 9.1 to 9.3).

/// Functions.
pub const FUNCTIONS: &str = "\
function,add_int2_int2,int2 int2,f,int2,immutable,t,add_int2_int2
function,add_int2_int4,int2 int4,f,int4,immutable,t,add_int2_int4
function,add_int2_int8,int2 int8,f,int8,immutable,t,add_int2_int8
function,add_int4_int2,int4 int2,f,int4,immutable,t,add_int4_int2
function,add_int4_int4,int4 int4,f,int4,immutable,t,add_int4_int4
function,add_int4_int8,int4 int8,f,int8,immutable,t,add_int4_int8
function,add_int8_int2,int8 int2,f,int8,immutable,t,add_int8_int2
function,add_int8_int4,int8 int4,f,int8,immutable,t,add_int8_int4
function,add_int8_int8,int8 int8,f,int8,immutable,t,add_int8_int8
function,sub_int2_int2,int2 int2,f,int2,immutable,t,sub_int2_int2
function,sub_int2_int4,int2 int4,f,int4,immutable,t,sub_int2_int4
function,sub_int2_int8,int2 int8,f,int8,immutable,t,sub_int2_int8
function,sub_int4_int2,int4 int2,f,int4,immutable,t,sub_int4_int2
function,sub_int4_int4,int4 int4,f,int4,immutable,t,sub_int4_int4
function,sub_int4_int8,int4 int8,f,int8,immutable,t,sub_int4_int8
function,sub_int8_int2,int8 int2,f,int8,immutable,t,sub_int8_int2
function,sub_int8_int4,int8 int4,f,int8,immutable,t,sub_int8_int4
function,sub_int8_int8,int8 int8,f,int8,immutable,t,sub_int8_int8
function,mul_int2_int2,int2 int2,f,int2,immutable,t,mul_int2_int2
function,mul_int2_int4,int2 int4,f,int4,immutable,t,mul_int2_int4
function,mul_int2_int8,int2 int8,f,int8,immutable,t,mul_int2_int8
function,mul_int4_int2,int4 int2,f,int4,immutable,t,mul_int4_int2
function,mul_int4_int4,int4 int4,f,int4,immutable,t,mul_int4_int4
function,mul_int4_int8,int4 int8,f,int8,immutable,t,mul_int4_int8
function,mul_int8_int2,int8 int2,f,int8,immutable,t,mul_int8_int2
function,mul_int8_int4,int8 int4,f,int8,immutable,t,mul_int8_int4
function,mul_int8_int8,int8 int8,f,int8,immutable,t,mul_int8_int8
function,div_int2_int2,int2 int2,f,int2,immutable,t,div_int2_int2
function,div_int2_int4,int2 int4,f,int4,immutable,t,div_int2_int4
function,div_int2_int8,int2 int8,f,int8,immutable,t,div_int2_int8
function,div_int4_int2,int4 int2,f,int4,immutable,t,div_int4_int2
function,div_int4_int4,int4 int4,f,int4,immutable,t,div_int4_int4
function,div_int4_int8,int4 int8,f,int8,immutable,t,div_int4_int8
function,div_int8_int2,int8 int2,f,int8,immutable,t,div_int8_int2
function,div_int8_int4,int8 int4,f,int8,immutable,t,div_int8_int4
function,div_int8_int8,int8 int8,f,int8,immutable,t,div_int8_int8
function,eq_int2_int2,int2 int2,f,bool,immutable,t,eq_int2_int2
function,eq_int2_int4,int2 int4,f,bool,immutable,t,eq_int2_int4
function,eq_int2_int8,int2 int8,f,bool,immutable,t,eq_int2_int8
function,eq_int4_int2,int4 int2,f,bool,immutable,t,eq_int4_int2
function,eq_int4_int4,int4 int4,f,bool,immutable,t,eq_int4_int4
function,eq_int4_int8,int4 int8,f,bool,immutable,t,eq_int4_int8
function,eq_int8_int2,int8 int2,f,bool,immutable,t,eq_int8_int2
function,eq_int8_int4,int8 int4,f,bool,immutable,t,eq_int8_int4
function,eq_int8_int8,int8 int8,f,bool,immutable,t,eq_int8_int8
function,ne_int2_int2,int2 int2,f,bool,immutable,t,ne_int2_int2
function,ne_int2_int4,int2 int4,f,bool,immutable,t,ne_int2_int4
function,ne_int2_int8,int2 int8,f,bool,immutable,t,ne_int2_int8
function,ne_int4_int2,int4 int2,f,bool,immutable,t,ne_int4_int2
function,ne_int4_int4,int4 int4,f,bool,immutable,t,ne_int4_int4
function,ne_int4_int8,int4 int8,f,bool,immutable,t,ne_int4_int8
function,ne_int8_int2,int8 int2,f,bool,immutable,t,ne_int8_int2
function,ne_int8_int4,int8 int4,f,bool,immutable,t,ne_int8_int4
function,ne_int8_int8,int8 int8,f,bool,immutable,t,ne_int8_int8
function,lt_int2_int2,int2 int2,f,bool,immutable,t,lt_int2_int2
function,lt_int2_int4,int2 int4,f,bool,immutable,t,lt_int2_int4
function,lt_int2_int8,int2 int8,f,bool,immutable,t,lt_int2_int8
function,lt_int4_int2,int4 int2,f,bool,immutable,t,lt_int4_int2
function,lt_int4_int4,int4 int4,f,bool,immutable,t,lt_int4_int4
function,lt_int4_int8,int4 int8,f,bool,immutable,t,lt_int4_int8
function,lt_int8_int2,int8 int2,f,bool,immutable,t,lt_int8_int2
function,lt_int8_int4,int8 int4,f,bool,immutable,t,lt_int8_int4
function,lt_int8_int8,int8 int8,f,bool,immutable,t,lt_int8_int8
function,le_int2_int2,int2 int2,f,bool,immutable,t,le_int2_int2
function,le_int2_int4,int2 int4,f,bool,immutable,t,le_int2_int4
function,le_int2_int8,int2 int8,f,bool,immutable,t,le_int2_int8
function,le_int4_int2,int4 int2,f,bool,immutable,t,le_int4_int2
function,le_int4_int4,int4 int4,f,bool,immutable,t,le_int4_int4
function,le_int4_int8,int4 int8,f,bool,immutable,t,le_int4_int8
function,le_int8_int2,int8 int2,f,bool,immutable,t,le_int8_int2
function,le_int8_int4,int8 int4,f,bool,immutable,t,le_int8_int4
function,le_int8_int8,int8 int8,f,bool,immutable,t,le_int8_int8
function,gt_int2_int2,int2 int2,f,bool,immutable,t,gt_int2_int2
function,gt_int2_int4,int2 int4,f,bool,immutable,t,gt_int2_int4
function,gt_int2_int8,int2 int8,f,bool,immutable,t,gt_int2_int8
function,gt_int4_int2,int4 int2,f,bool,immutable,t,gt_int4_int2
function,gt_int4_int4,int4 int4,f,bool,immutable,t,gt_int4_int4
function,gt_int4_int8,int4 int8,f,bool,immutable,t,gt_int4_int8
function,gt_int8_int2,int8 int2,f,bool,immutable,t,gt_int8_int2
function,gt_int8_int4,int8 int4,f,bool,immutable,t,gt_int8_int4
function,gt_int8_int8,int8 int8,f,bool,immutable,t,gt_int8_int8
function,ge_int2_int2,int2 int2,f,bool,immutable,t,ge_int2_int2
function,ge_int2_int4,int2 int4,f,bool,immutable,t,ge_int2_int4
function,ge_int2_int8,int2 int8,f,bool,immutable,t,ge_int2_int8
function,ge_int4_int2,int4 int2,f,bool,immutable,t,ge_int4_int2
function,ge_int4_int4,int4 int4,f,bool,immutable,t,ge_int4_int4
function,ge_int4_int8,int4 int8,f,bool,immutable,t,ge_int4_int8
function,ge_int8_int2,int8 int2,f,bool,immutable,t,ge_int8_int2
function,ge_int8_int4,int8 int4,f,bool,immutable,t,ge_int8_int4
function,ge_int8_int8,int8 int8,f,bool,immutable,t,ge_int8_int8
function,mod,int2 int2,f,int2,immutable,t,mod_int2_int2
function,mod,int4 int4,f,int4,immutable,t,mod_int4_int4
function,mod,int8 int8,f,int8,immutable,t,mod_int8_int8
function,and_int2_int2,int2 int2,f,int2,immutable,t,and_int2_int2
function,and_int4_int4,int4 int4,f,int4,immutable,t,and_int4_int4
function,and_int8_int8,int8 int8,f,int8,immutable,t,and_int8_int8
function,or_int2_int2,int2 int2,f,int2,immutable,t,or_int2_int2
function,or_int4_int4,int4 int4,f,int4,immutable,t,or_int4_int4
function,or_int8_int8,int8 int8,f,int8,immutable,t,or_int8_int8
function,xor_int2_int2,int2 int2,f,int2,immutable,t,xor_int2_int2
function,xor_int4_int4,int4 int4,f,int4,immutable,t,xor_int4_int4
function,xor_int8_int8,int8 int8,f,int8,immutable,t,xor_int8_int8
function,not_int2,int2,f,int2,immutable,t,not_int2
function,not_int4,int4,f,int4,immutable,t,not_int4
function,not_int8,int8,f,int8,immutable,t,not_int8
function,shl_int2_int4,int2 int4,f,int2,immutable,t,shl_int2_int4
function,shl_int4_int4,int4 int4,f,int4,immutable,t,shl_int4_int4
function,shl_int8_int4,int8 int4,f,int8,immutable,t,shl_int8_int4
function,shr_int2_int4,int2 int4,f,int2,immutable,t,shr_int2_int4
function,shr_int4_int4,int4 int4,f,int4,immutable,t,shr_int4_int4
function,shr_int8_int4,int8 int4,f,int8,immutable,t,shr_int8_int4
function,neg_int2,int2,f,int2,immutable,t,neg_int2
function,neg_int4,int4,f,int4,immutable,t,neg_int4
function,neg_int8,int8,f,int8,immutable,t,neg_int8
function,plus_int2,int2,f,int2,immutable,t,plus_int2
function,plus_int4,int4,f,int4,immutable,t,plus_int4
function,plus_int8,int8,f,int8,immutable,t,plus_int8
function,abs,int2,f,int2,immutable,t,abs_int2
function,abs,int4,f,int4,immutable,t,abs_int4
function,abs,int8,f,int8,immutable,t,abs_int8
function,int2,int4,f,int2,immutable,t,int2_int4
function,int2,int8,f,int2,immutable,t,int2_int8
function,int4,int2,f,int4,immutable,t,int4_int2
function,int4,int8,f,int4,immutable,t,int4_int8
function,int8,int2,f,int8,immutable,t,int8_int2
function,int8,int4,f,int8,immutable,t,int8_int4
function,bool,int4,f,bool,immutable,t,bool_int4
function,int4,bool,f,int4,immutable,t,int4_bool
function,to_hex,int4,f,text,immutable,t,to_hex_int4
function,to_hex,int8,f,text,immutable,t,to_hex_int8
function,eq_bool_bool,bool bool,f,bool,immutable,t,eq_bool_bool
function,ne_bool_bool,bool bool,f,bool,immutable,t,ne_bool_bool
function,lt_bool_bool,bool bool,f,bool,immutable,t,lt_bool_bool
function,le_bool_bool,bool bool,f,bool,immutable,t,le_bool_bool
function,gt_bool_bool,bool bool,f,bool,immutable,t,gt_bool_bool
function,ge_bool_bool,bool bool,f,bool,immutable,t,ge_bool_bool
";

/// Operators.
pub const OPERATORS: &str = "\
operator,+,int2,int2,add_int2_int2
operator,+,int2,int4,add_int2_int4
operator,+,int2,int8,add_int2_int8
operator,+,int4,int2,add_int4_int2
operator,+,int4,int4,add_int4_int4
operator,+,int4,int8,add_int4_int8
operator,+,int8,int2,add_int8_int2
operator,+,int8,int4,add_int8_int4
operator,+,int8,int8,add_int8_int8
operator,-,int2,int2,sub_int2_int2
operator,-,int2,int4,sub_int2_int4
operator,-,int2,int8,sub_int2_int8
operator,-,int4,int2,sub_int4_int2
operator,-,int4,int4,sub_int4_int4
operator,-,int4,int8,sub_int4_int8
operator,-,int8,int2,sub_int8_int2
operator,-,int8,int4,sub_int8_int4
operator,-,int8,int8,sub_int8_int8
operator,*,int2,int2,mul_int2_int2
operator,*,int2,int4,mul_int2_int4
operator,*,int2,int8,mul_int2_int8
operator,*,int4,int2,mul_int4_int2
operator,*,int4,int4,mul_int4_int4
operator,*,int4,int8,mul_int4_int8
operator,*,int8,int2,mul_int8_int2
operator,*,int8,int4,mul_int8_int4
operator,*,int8,int8,mul_int8_int8
operator,/,int2,int2,div_int2_int2
operator,/,int2,int4,div_int2_int4
operator,/,int2,int8,div_int2_int8
operator,/,int4,int2,div_int4_int2
operator,/,int4,int4,div_int4_int4
operator,/,int4,int8,div_int4_int8
operator,/,int8,int2,div_int8_int2
operator,/,int8,int4,div_int8_int4
operator,/,int8,int8,div_int8_int8
operator,=,int2,int2,eq_int2_int2
operator,=,int2,int4,eq_int2_int4
operator,=,int2,int8,eq_int2_int8
operator,=,int4,int2,eq_int4_int2
operator,=,int4,int4,eq_int4_int4
operator,=,int4,int8,eq_int4_int8
operator,=,int8,int2,eq_int8_int2
operator,=,int8,int4,eq_int8_int4
operator,=,int8,int8,eq_int8_int8
operator,<>,int2,int2,ne_int2_int2
operator,<>,int2,int4,ne_int2_int4
operator,<>,int2,int8,ne_int2_int8
operator,<>,int4,int2,ne_int4_int2
operator,<>,int4,int4,ne_int4_int4
operator,<>,int4,int8,ne_int4_int8
operator,<>,int8,int2,ne_int8_int2
operator,<>,int8,int4,ne_int8_int4
operator,<>,int8,int8,ne_int8_int8
operator,<,int2,int2,lt_int2_int2
operator,<,int2,int4,lt_int2_int4
operator,<,int2,int8,lt_int2_int8
operator,<,int4,int2,lt_int4_int2
operator,<,int4,int4,lt_int4_int4
operator,<,int4,int8,lt_int4_int8
operator,<,int8,int2,lt_int8_int2
operator,<,int8,int4,lt_int8_int4
operator,<,int8,int8,lt_int8_int8
operator,<=,int2,int2,le_int2_int2
operator,<=,int2,int4,le_int2_int4
operator,<=,int2,int8,le_int2_int8
operator,<=,int4,int2,le_int4_int2
operator,<=,int4,int4,le_int4_int4
operator,<=,int4,int8,le_int4_int8
operator,<=,int8,int2,le_int8_int2
operator,<=,int8,int4,le_int8_int4
operator,<=,int8,int8,le_int8_int8
operator,>,int2,int2,gt_int2_int2
operator,>,int2,int4,gt_int2_int4
operator,>,int2,int8,gt_int2_int8
operator,>,int4,int2,gt_int4_int2
operator,>,int4,int4,gt_int4_int4
operator,>,int4,int8,gt_int4_int8
operator,>,int8,int2,gt_int8_int2
operator,>,int8,int4,gt_int8_int4
operator,>,int8,int8,gt_int8_int8
operator,>=,int2,int2,ge_int2_int2
operator,>=,int2,int4,ge_int2_int4
operator,>=,int2,int8,ge_int2_int8
operator,>=,int4,int2,ge_int4_int2
operator,>=,int4,int4,ge_int4_int4
operator,>=,int4,int8,ge_int4_int8
operator,>=,int8,int2,ge_int8_int2
operator,>=,int8,int4,ge_int8_int4
operator,>=,int8,int8,ge_int8_int8
operator,%,int2,int2,mod
operator,%,int4,int4,mod
operator,%,int8,int8,mod
operator,&,int2,int2,and_int2_int2
operator,&,int4,int4,and_int4_int4
operator,&,int8,int8,and_int8_int8
operator,|,int2,int2,or_int2_int2
operator,|,int4,int4,or_int4_int4
operator,|,int8,int8,or_int8_int8
operator,#,int2,int2,xor_int2_int2
operator,#,int4,int4,xor_int4_int4
operator,#,int8,int8,xor_int8_int8
operator,~,,int2,not_int2
operator,~,,int4,not_int4
operator,~,,int8,not_int8
operator,<<,int2,int4,shl_int2_int4
operator,<<,int4,int4,shl_int4_int4
operator,<<,int8,int4,shl_int8_int4
operator,>>,int2,int4,shr_int2_int4
operator,>>,int4,int4,shr_int4_int4
operator,>>,int8,int4,shr_int8_int4
operator,-,,int2,neg_int2
operator,-,,int4,neg_int4
operator,-,,int8,neg_int8
operator,+,,int2,plus_int2
operator,+,,int4,plus_int4
operator,+,,int8,plus_int8
operator,@,,int2,abs
operator,@,,int4,abs
operator,@,,int8,abs
operator,=,bool,bool,eq_bool_bool
operator,<>,bool,bool,ne_bool_bool
operator,<,bool,bool,lt_bool_bool
operator,<=,bool,bool,le_bool_bool
operator,>,bool,bool,gt_bool_bool
operator,>=,bool,bool,ge_bool_bool
";
