//! Functions and operators over texts and byte strings (manual 9.4, 9.5 and 9.7).

/// Functions.
pub const FUNCTIONS: &str = "\
function,cat_text_text,text text,f,text,immutable,t,cat_text_text
function,cat_bytea_bytea,bytea bytea,f,bytea,immutable,t,cat_bytea_bytea
function,textany_text_anynonarray,text anynonarray,f,text,stable,t,textany_text_anynonarray
function,anytext_anynonarray_text,anynonarray text,f,text,stable,t,anytext_anynonarray_text
function,eq_text_text,text text,f,bool,immutable,t,eq_text_text
function,eq_bpchar_bpchar,bpchar bpchar,f,bool,immutable,t,eq_bpchar_bpchar
function,eq_bytea_bytea,bytea bytea,f,bool,immutable,t,eq_bytea_bytea
function,ne_text_text,text text,f,bool,immutable,t,ne_text_text
function,ne_bpchar_bpchar,bpchar bpchar,f,bool,immutable,t,ne_bpchar_bpchar
function,ne_bytea_bytea,bytea bytea,f,bool,immutable,t,ne_bytea_bytea
function,lt_text_text,text text,f,bool,immutable,t,lt_text_text
function,lt_bpchar_bpchar,bpchar bpchar,f,bool,immutable,t,lt_bpchar_bpchar
function,lt_bytea_bytea,bytea bytea,f,bool,immutable,t,lt_bytea_bytea
function,le_text_text,text text,f,bool,immutable,t,le_text_text
function,le_bpchar_bpchar,bpchar bpchar,f,bool,immutable,t,le_bpchar_bpchar
function,le_bytea_bytea,bytea bytea,f,bool,immutable,t,le_bytea_bytea
function,gt_text_text,text text,f,bool,immutable,t,gt_text_text
function,gt_bpchar_bpchar,bpchar bpchar,f,bool,immutable,t,gt_bpchar_bpchar
function,gt_bytea_bytea,bytea bytea,f,bool,immutable,t,gt_bytea_bytea
function,ge_text_text,text text,f,bool,immutable,t,ge_text_text
function,ge_bpchar_bpchar,bpchar bpchar,f,bool,immutable,t,ge_bpchar_bpchar
function,ge_bytea_bytea,bytea bytea,f,bool,immutable,t,ge_bytea_bytea
function,like_text_text,text text,f,bool,immutable,t,like_text_text
function,like_bpchar_text,bpchar text,f,bool,immutable,t,like_bpchar_text
function,nlike_text_text,text text,f,bool,immutable,t,nlike_text_text
function,nlike_bpchar_text,bpchar text,f,bool,immutable,t,nlike_bpchar_text
function,ilike_text_text,text text,f,bool,immutable,t,ilike_text_text
function,ilike_bpchar_text,bpchar text,f,bool,immutable,t,ilike_bpchar_text
function,nilike_text_text,text text,f,bool,immutable,t,nilike_text_text
function,nilike_bpchar_text,bpchar text,f,bool,immutable,t,nilike_bpchar_text
function,like_bytea_bytea,bytea bytea,f,bool,immutable,t,like_bytea_bytea
function,nlike_bytea_bytea,bytea bytea,f,bool,immutable,t,nlike_bytea_bytea
function,text,bpchar,f,text,immutable,t,text_bpchar
function,varchar,bpchar,f,varchar,immutable,t,varchar_bpchar
function,text,bool,f,text,immutable,t,text_bool
function,varchar,bool,f,varchar,immutable,t,varchar_bool
function,bpchar,bool,f,bpchar,immutable,t,bpchar_bool
function,length,text,f,int4,immutable,t,length_text
function,char_length,text,f,int4,immutable,t,length_text
function,character_length,text,f,int4,immutable,t,length_text
function,length,bpchar,f,int4,immutable,t,length_bpchar
function,char_length,bpchar,f,int4,immutable,t,length_bpchar
function,character_length,bpchar,f,int4,immutable,t,length_bpchar
function,length,bytea,f,int4,immutable,t,length_bytea
function,octet_length,text,f,int4,immutable,t,octet_length_text
function,octet_length,bpchar,f,int4,immutable,t,octet_length_bpchar
function,octet_length,bytea,f,int4,immutable,t,octet_length_bytea
function,upper,text,f,text,immutable,t,upper_text
function,lower,text,f,text,immutable,t,lower_text
function,substr,text int4,f,text,immutable,t,substr_text_int4
function,substring,text int4,f,text,immutable,t,substr_text_int4
function,substr,text int4 int4,f,text,immutable,t,substr_text_int4_int4
function,substring,text int4 int4,f,text,immutable,t,substr_text_int4_int4
function,substr,bytea int4,f,bytea,immutable,t,substr_bytea_int4
function,substring,bytea int4,f,bytea,immutable,t,substr_bytea_int4
function,substr,bytea int4 int4,f,bytea,immutable,t,substr_bytea_int4_int4
function,substring,bytea int4 int4,f,bytea,immutable,t,substr_bytea_int4_int4
function,strpos,text text,f,int4,immutable,t,strpos_text_text
function,position,text text,f,int4,immutable,t,strpos_text_text
function,position,bytea bytea,f,int4,immutable,t,strpos_bytea_bytea
function,left,text int4,f,text,immutable,t,left_text_int4
function,right,text int4,f,text,immutable,t,right_text_int4
function,lpad,text int4,f,text,immutable,t,lpad_text_int4
function,lpad,text int4 text,f,text,immutable,t,lpad_text_int4_text
function,rpad,text int4,f,text,immutable,t,rpad_text_int4
function,rpad,text int4 text,f,text,immutable,t,rpad_text_int4_text
function,ltrim,text,f,text,immutable,t,ltrim_text
function,ltrim,text text,f,text,immutable,t,ltrim_text_text
function,rtrim,text,f,text,immutable,t,rtrim_text
function,rtrim,text text,f,text,immutable,t,rtrim_text_text
function,btrim,text,f,text,immutable,t,btrim_text
function,btrim,text text,f,text,immutable,t,btrim_text_text
function,replace,text text text,f,text,immutable,t,replace_text_text_text
function,translate,text text text,f,text,immutable,t,translate_text_text_text
function,repeat,text int4,f,text,immutable,t,repeat_text_int4
function,reverse,text,f,text,immutable,t,reverse_text
function,split_part,text text int4,f,text,immutable,t,split_part_text_text_int4
function,starts_with,text text,f,bool,immutable,t,starts_with_text_text
function,ascii,text,f,int4,immutable,t,ascii_text
function,chr,int4,f,text,immutable,t,chr_int4
function,concat,any,t,text,stable,f,concat_any
function,concat_ws,text any,t,text,stable,f,concat_ws_text_any
function,encode,bytea text,f,text,immutable,t,encode_bytea_text
function,decode,text text,f,bytea,immutable,t,decode_text_text
function,get_byte,bytea int4,f,int4,immutable,t,get_byte_bytea_int4
function,set_byte,bytea int4 int4,f,bytea,immutable,t,set_byte_bytea_int4_int4
";

/// Operators.
pub const OPERATORS: &str = "\
operator,||,text,text,cat_text_text
operator,||,bytea,bytea,cat_bytea_bytea
operator,||,text,anynonarray,textany_text_anynonarray
operator,||,anynonarray,text,anytext_anynonarray_text
operator,=,text,text,eq_text_text
operator,=,bpchar,bpchar,eq_bpchar_bpchar
operator,=,bytea,bytea,eq_bytea_bytea
operator,<>,text,text,ne_text_text
operator,<>,bpchar,bpchar,ne_bpchar_bpchar
operator,<>,bytea,bytea,ne_bytea_bytea
operator,<,text,text,lt_text_text
operator,<,bpchar,bpchar,lt_bpchar_bpchar
operator,<,bytea,bytea,lt_bytea_bytea
operator,<=,text,text,le_text_text
operator,<=,bpchar,bpchar,le_bpchar_bpchar
operator,<=,bytea,bytea,le_bytea_bytea
operator,>,text,text,gt_text_text
operator,>,bpchar,bpchar,gt_bpchar_bpchar
operator,>,bytea,bytea,gt_bytea_bytea
operator,>=,text,text,ge_text_text
operator,>=,bpchar,bpchar,ge_bpchar_bpchar
operator,>=,bytea,bytea,ge_bytea_bytea
operator,~~,text,text,like_text_text
operator,~~,bpchar,text,like_bpchar_text
operator,!~~,text,text,nlike_text_text
operator,!~~,bpchar,text,nlike_bpchar_text
operator,~~*,text,text,ilike_text_text
operator,~~*,bpchar,text,ilike_bpchar_text
operator,!~~*,text,text,nilike_text_text
operator,!~~*,bpchar,text,nilike_bpchar_text
operator,~~,bytea,bytea,like_bytea_bytea
operator,!~~,bytea,bytea,nlike_bytea_bytea
";
