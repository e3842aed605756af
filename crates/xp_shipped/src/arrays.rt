//! Functions and operators over arrays (manual 9.19).

/// Functions.
pub const FUNCTIONS: &str = "\
function,eq_anyarray_anyarray,anyarray anyarray,f,bool,immutable,t,eq_anyarray_anyarray
function,ne_anyarray_anyarray,anyarray anyarray,f,bool,immutable,t,ne_anyarray_anyarray
function,lt_anyarray_anyarray,anyarray anyarray,f,bool,immutable,t,lt_anyarray_anyarray
function,le_anyarray_anyarray,anyarray anyarray,f,bool,immutable,t,le_anyarray_anyarray
function,gt_anyarray_anyarray,anyarray anyarray,f,bool,immutable,t,gt_anyarray_anyarray
function,ge_anyarray_anyarray,anyarray anyarray,f,bool,immutable,t,ge_anyarray_anyarray
function,contains_anyarray_anyarray,anyarray anyarray,f,bool,immutable,t,contains_anyarray_anyarray
function,contained_anyarray_anyarray,anyarray anyarray,f,bool,immutable,t,contained_anyarray_anyarray
function,overlaps_anyarray_anyarray,anyarray anyarray,f,bool,immutable,t,overlaps_anyarray_anyarray
function,array_cat,anycompatiblearray anycompatiblearray,f,anycompatiblearray,immutable,f,array_cat_anycompatiblearray_anycompatiblearray
function,array_append,anycompatiblearray anycompatible,f,anycompatiblearray,immutable,f,array_append_anycompatiblearray_anycompatible
function,array_prepend,anycompatible anycompatiblearray,f,anycompatiblearray,immutable,f,array_prepend_anycompatible_anycompatiblearray
function,array_length,anyarray int4,f,int4,immutable,t,array_length_anyarray_int4
function,array_upper,anyarray int4,f,int4,immutable,t,array_upper_anyarray_int4
function,array_lower,anyarray int4,f,int4,immutable,t,array_lower_anyarray_int4
function,array_ndims,anyarray,f,int4,immutable,t,array_ndims_anyarray
function,cardinality,anyarray,f,int4,immutable,t,cardinality_anyarray
function,array_position,anycompatiblearray anycompatible,f,int4,immutable,f,array_position_anycompatiblearray_anycompatible
function,array_positions,anycompatiblearray anycompatible,f,int4[],immutable,f,array_positions_anycompatiblearray_anycompatible
function,array_remove,anycompatiblearray anycompatible,f,anycompatiblearray,immutable,f,array_remove_anycompatiblearray_anycompatible
function,array_replace,anycompatiblearray anycompatible anycompatible,f,anycompatiblearray,immutable,f,array_replace_anycompatiblearray_anycompatible_anycompatible
function,trim_array,anyarray int4,f,anyarray,immutable,t,trim_array_anyarray_int4
function,array_to_string,anyarray text,f,text,stable,t,array_to_string_anyarray_text
function,array_to_string,anyarray text text,f,text,stable,f,array_to_string_anyarray_text_text
function,string_to_array,text text,f,text[],immutable,f,string_to_array_text_text
function,string_to_array,text text text,f,text[],immutable,f,string_to_array_text_text_text
";

/// Operators.
pub const OPERATORS: &str = "\
operator,=,anyarray,anyarray,eq_anyarray_anyarray
operator,<>,anyarray,anyarray,ne_anyarray_anyarray
operator,<,anyarray,anyarray,lt_anyarray_anyarray
operator,<=,anyarray,anyarray,le_anyarray_anyarray
operator,>,anyarray,anyarray,gt_anyarray_anyarray
operator,>=,anyarray,anyarray,ge_anyarray_anyarray
operator,@>,anyarray,anyarray,contains_anyarray_anyarray
operator,<@,anyarray,anyarray,contained_anyarray_anyarray
operator,&&,anyarray,anyarray,overlaps_anyarray_anyarray
operator,||,anycompatiblearray,anycompatiblearray,array_cat
operator,||,anycompatiblearray,anycompatible,array_append
operator,||,anycompatible,anycompatiblearray,array_prepend
";
