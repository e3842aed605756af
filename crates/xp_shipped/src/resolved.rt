//! Functions and operators over types that are only resolved: calls of them have no body.

/// Functions.
pub const FUNCTIONS: &str = "\
function,add_float4_float4,float4 float4,f,float4,immutable,t,none
function,sub_float4_float4,float4 float4,f,float4,immutable,t,none
function,mul_float4_float4,float4 float4,f,float4,immutable,t,none
function,div_float4_float4,float4 float4,f,float4,immutable,t,none
function,eq_float4_float4,float4 float4,f,bool,immutable,t,none
function,ne_float4_float4,float4 float4,f,bool,immutable,t,none
function,lt_float4_float4,float4 float4,f,bool,immutable,t,none
function,le_float4_float4,float4 float4,f,bool,immutable,t,none
function,gt_float4_float4,float4 float4,f,bool,immutable,t,none
function,ge_float4_float4,float4 float4,f,bool,immutable,t,none
function,neg_float4,float4,f,float4,immutable,t,none
function,plus_float4,float4,f,float4,immutable,t,none
function,abs_float4,float4,f,float4,immutable,t,none
function,add_float8_float8,float8 float8,f,float8,immutable,t,none
function,sub_float8_float8,float8 float8,f,float8,immutable,t,none
function,mul_float8_float8,float8 float8,f,float8,immutable,t,none
function,div_float8_float8,float8 float8,f,float8,immutable,t,none
function,eq_float8_float8,float8 float8,f,bool,immutable,t,none
function,ne_float8_float8,float8 float8,f,bool,immutable,t,none
function,lt_float8_float8,float8 float8,f,bool,immutable,t,none
function,le_float8_float8,float8 float8,f,bool,immutable,t,none
function,gt_float8_float8,float8 float8,f,bool,immutable,t,none
function,ge_float8_float8,float8 float8,f,bool,immutable,t,none
function,neg_float8,float8,f,float8,immutable,t,none
function,plus_float8,float8,f,float8,immutable,t,none
function,abs,float8,f,float8,immutable,t,none
function,ceil,float8,f,float8,immutable,t,none
function,ceiling,float8,f,float8,immutable,t,none
function,floor,float8,f,float8,immutable,t,none
function,round,float8,f,float8,immutable,t,none
function,trunc,float8,f,float8,immutable,t,none
function,sign,float8,f,float8,immutable,t,none
function,sqrt,float8,f,float8,immutable,t,none
function,sqrt,numeric,f,numeric,immutable,t,none
function,power_float8_float8,float8 float8,f,float8,immutable,t,none
function,power_numeric_numeric,numeric numeric,f,numeric,immutable,t,none
function,eq_timestamp_timestamp,timestamp timestamp,f,bool,immutable,t,none
function,ne_timestamp_timestamp,timestamp timestamp,f,bool,immutable,t,none
function,lt_timestamp_timestamp,timestamp timestamp,f,bool,immutable,t,none
function,le_timestamp_timestamp,timestamp timestamp,f,bool,immutable,t,none
function,gt_timestamp_timestamp,timestamp timestamp,f,bool,immutable,t,none
function,ge_timestamp_timestamp,timestamp timestamp,f,bool,immutable,t,none
function,eq_timestamptz_timestamptz,timestamptz timestamptz,f,bool,immutable,t,none
function,ne_timestamptz_timestamptz,timestamptz timestamptz,f,bool,immutable,t,none
function,lt_timestamptz_timestamptz,timestamptz timestamptz,f,bool,immutable,t,none
function,le_timestamptz_timestamptz,timestamptz timestamptz,f,bool,immutable,t,none
function,gt_timestamptz_timestamptz,timestamptz timestamptz,f,bool,immutable,t,none
function,ge_timestamptz_timestamptz,timestamptz timestamptz,f,bool,immutable,t,none
function,eq_interval_interval,interval interval,f,bool,immutable,t,none
function,ne_interval_interval,interval interval,f,bool,immutable,t,none
function,lt_interval_interval,interval interval,f,bool,immutable,t,none
function,le_interval_interval,interval interval,f,bool,immutable,t,none
function,gt_interval_interval,interval interval,f,bool,immutable,t,none
function,ge_interval_interval,interval interval,f,bool,immutable,t,none
function,add_date_interval,date interval,f,timestamp,immutable,t,none
function,add_timestamp_interval,timestamp interval,f,timestamp,immutable,t,none
function,sub_timestamp_timestamp,timestamp timestamp,f,interval,immutable,t,none
function,date_part,text date,f,float8,immutable,t,none
function,extract,text timestamp,f,numeric,immutable,t,none
function,extract,text timestamptz,f,numeric,stable,t,none
function,extract,text interval,f,numeric,immutable,t,none
function,cat_varbit_varbit,varbit varbit,f,varbit,immutable,t,none
function,not_bit,bit,f,bit,immutable,t,none
";

/// Operators.
pub const OPERATORS: &str = "\
operator,+,float4,float4,add_float4_float4
operator,-,float4,float4,sub_float4_float4
operator,*,float4,float4,mul_float4_float4
operator,/,float4,float4,div_float4_float4
operator,=,float4,float4,eq_float4_float4
operator,<>,float4,float4,ne_float4_float4
operator,<,float4,float4,lt_float4_float4
operator,<=,float4,float4,le_float4_float4
operator,>,float4,float4,gt_float4_float4
operator,>=,float4,float4,ge_float4_float4
operator,-,,float4,neg_float4
operator,+,,float4,plus_float4
operator,@,,float4,abs_float4
operator,+,float8,float8,add_float8_float8
operator,-,float8,float8,sub_float8_float8
operator,*,float8,float8,mul_float8_float8
operator,/,float8,float8,div_float8_float8
operator,=,float8,float8,eq_float8_float8
operator,<>,float8,float8,ne_float8_float8
operator,<,float8,float8,lt_float8_float8
operator,<=,float8,float8,le_float8_float8
operator,>,float8,float8,gt_float8_float8
operator,>=,float8,float8,ge_float8_float8
operator,-,,float8,neg_float8
operator,+,,float8,plus_float8
operator,@,,float8,abs
operator,|/,,float8,sqrt
operator,^,float8,float8,power_float8_float8
operator,^,numeric,numeric,power_numeric_numeric
operator,=,timestamp,timestamp,eq_timestamp_timestamp
operator,<>,timestamp,timestamp,ne_timestamp_timestamp
operator,<,timestamp,timestamp,lt_timestamp_timestamp
operator,<=,timestamp,timestamp,le_timestamp_timestamp
operator,>,timestamp,timestamp,gt_timestamp_timestamp
operator,>=,timestamp,timestamp,ge_timestamp_timestamp
operator,=,timestamptz,timestamptz,eq_timestamptz_timestamptz
operator,<>,timestamptz,timestamptz,ne_timestamptz_timestamptz
operator,<,timestamptz,timestamptz,lt_timestamptz_timestamptz
operator,<=,timestamptz,timestamptz,le_timestamptz_timestamptz
operator,>,timestamptz,timestamptz,gt_timestamptz_timestamptz
operator,>=,timestamptz,timestamptz,ge_timestamptz_timestamptz
operator,=,interval,interval,eq_interval_interval
operator,<>,interval,interval,ne_interval_interval
operator,<,interval,interval,lt_interval_interval
operator,<=,interval,interval,le_interval_interval
operator,>,interval,interval,gt_interval_interval
operator,>=,interval,interval,ge_interval_interval
operator,+,date,interval,add_date_interval
operator,+,timestamp,interval,add_timestamp_interval
operator,-,timestamp,timestamp,sub_timestamp_timestamp
operator,||,varbit,varbit,cat_varbit_varbit
operator,~,,bit,not_bit
";
