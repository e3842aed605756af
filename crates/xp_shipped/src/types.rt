//! The types and the ranges (manual 8).

/// Types that hold values, then those that are only resolved, then the pseudo-types (manual 8.21).
pub const TYPES: &str = "\
type,bool,B,t
type,int2,N,f
type,int4,N,f
type,int8,N,f
type,numeric,N,f
type,text,S,t
type,varchar,S,f
type,bpchar,S,f
type,bytea,U,f
type,date,D,f
type,float4,N,f
type,float8,N,t
type,timestamp,D,f
type,timestamptz,D,t
type,time,D,f
type,interval,T,t
type,bit,V,f
type,varbit,V,t
type,any,P,f
type,anyelement,P,f
type,anyarray,P,f
type,anynonarray,P,f
type,anyrange,P,f
type,anycompatible,P,f
type,anycompatiblearray,P,f
type,anycompatiblenonarray,P,f
type,anycompatiblerange,P,f
";

/// Ranges (manual 8.17).
pub const RANGES: &str = "\
range,int4range,int4
range,int8range,int8
range,daterange,date
";
