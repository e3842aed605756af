//! Functions and operators over dates (manual 9.9).

/// Functions.
pub const FUNCTIONS: &str = "\
function,eq_date_date,date date,f,bool,immutable,t,eq_date_date
function,ne_date_date,date date,f,bool,immutable,t,ne_date_date
function,lt_date_date,date date,f,bool,immutable,t,lt_date_date
function,le_date_date,date date,f,bool,immutable,t,le_date_date
function,gt_date_date,date date,f,bool,immutable,t,gt_date_date
function,ge_date_date,date date,f,bool,immutable,t,ge_date_date
function,add_date_int4,date int4,f,date,immutable,t,add_date_int4
function,add_int4_date,int4 date,f,date,immutable,t,add_int4_date
function,sub_date_int4,date int4,f,date,immutable,t,sub_date_int4
function,sub_date_date,date date,f,int4,immutable,t,sub_date_date
function,make_date,int4 int4 int4,f,date,immutable,t,make_date_int4_int4_int4
function,extract,text date,f,numeric,immutable,t,extract_text_date
";

/// Operators.
pub const OPERATORS: &str = "\
operator,=,date,date,eq_date_date
operator,<>,date,date,ne_date_date
operator,<,date,date,lt_date_date
operator,<=,date,date,le_date_date
operator,>,date,date,gt_date_date
operator,>=,date,date,ge_date_date
operator,+,date,int4,add_date_int4
operator,+,int4,date,add_int4_date
operator,-,date,int4,sub_date_int4
operator,-,date,date,sub_date_date
";
