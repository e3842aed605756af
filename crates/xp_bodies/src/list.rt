//! The list of all bodies, family by family.

/// Hands the bodies of a family to a macro, each by its name, the types of its arguments and of its
/// result, and the words that say what isn't usual: `variadic`; `stable`, where it isn't immutable;
/// `on_null`, where it is called on null arguments too.
#[macro_export]
macro_rules! bodies_of {
    // Sums, differences, products and quotients of integers.
    (arithmetic, $callback:ident) => {
        $callback! {
            add_int2_int2("int2", "int2") -> "int2";
            add_int2_int4("int2", "int4") -> "int4";
            add_int2_int8("int2", "int8") -> "int8";
            add_int4_int2("int4", "int2") -> "int4";
            add_int4_int4("int4", "int4") -> "int4";
            add_int4_int8("int4", "int8") -> "int8";
            add_int8_int2("int8", "int2") -> "int8";
            add_int8_int4("int8", "int4") -> "int8";
            add_int8_int8("int8", "int8") -> "int8";
            sub_int2_int2("int2", "int2") -> "int2";
            sub_int2_int4("int2", "int4") -> "int4";
            sub_int2_int8("int2", "int8") -> "int8";
            sub_int4_int2("int4", "int2") -> "int4";
            sub_int4_int4("int4", "int4") -> "int4";
            sub_int4_int8("int4", "int8") -> "int8";
            sub_int8_int2("int8", "int2") -> "int8";
            sub_int8_int4("int8", "int4") -> "int8";
            sub_int8_int8("int8", "int8") -> "int8";
            mul_int2_int2("int2", "int2") -> "int2";
            mul_int2_int4("int2", "int4") -> "int4";
            mul_int2_int8("int2", "int8") -> "int8";
            mul_int4_int2("int4", "int2") -> "int4";
            mul_int4_int4("int4", "int4") -> "int4";
            mul_int4_int8("int4", "int8") -> "int8";
            mul_int8_int2("int8", "int2") -> "int8";
            mul_int8_int4("int8", "int4") -> "int8";
            mul_int8_int8("int8", "int8") -> "int8";
            div_int2_int2("int2", "int2") -> "int2";
            div_int2_int4("int2", "int4") -> "int4";
            div_int2_int8("int2", "int8") -> "int8";
            div_int4_int2("int4", "int2") -> "int4";
            div_int4_int4("int4", "int4") -> "int4";
            div_int4_int8("int4", "int8") -> "int8";
            div_int8_int2("int8", "int2") -> "int8";
            div_int8_int4("int8", "int4") -> "int8";
            div_int8_int8("int8", "int8") -> "int8";
        }
    };
    // Comparisons of integers.
    (comparisons, $callback:ident) => {
        $callback! {
            eq_int2_int2("int2", "int2") -> "bool";
            eq_int2_int4("int2", "int4") -> "bool";
            eq_int2_int8("int2", "int8") -> "bool";
            eq_int4_int2("int4", "int2") -> "bool";
            eq_int4_int4("int4", "int4") -> "bool";
            eq_int4_int8("int4", "int8") -> "bool";
            eq_int8_int2("int8", "int2") -> "bool";
            eq_int8_int4("int8", "int4") -> "bool";
            eq_int8_int8("int8", "int8") -> "bool";
            ne_int2_int2("int2", "int2") -> "bool";
            ne_int2_int4("int2", "int4") -> "bool";
            ne_int2_int8("int2", "int8") -> "bool";
            ne_int4_int2("int4", "int2") -> "bool";
            ne_int4_int4("int4", "int4") -> "bool";
            ne_int4_int8("int4", "int8") -> "bool";
            ne_int8_int2("int8", "int2") -> "bool";
            ne_int8_int4("int8", "int4") -> "bool";
            ne_int8_int8("int8", "int8") -> "bool";
            lt_int2_int2("int2", "int2") -> "bool";
            lt_int2_int4("int2", "int4") -> "bool";
            lt_int2_int8("int2", "int8") -> "bool";
            lt_int4_int2("int4", "int2") -> "bool";
            lt_int4_int4("int4", "int4") -> "bool";
            lt_int4_int8("int4", "int8") -> "bool";
            lt_int8_int2("int8", "int2") -> "bool";
            lt_int8_int4("int8", "int4") -> "bool";
            lt_int8_int8("int8", "int8") -> "bool";
            le_int2_int2("int2", "int2") -> "bool";
            le_int2_int4("int2", "int4") -> "bool";
            le_int2_int8("int2", "int8") -> "bool";
            le_int4_int2("int4", "int2") -> "bool";
            le_int4_int4("int4", "int4") -> "bool";
            le_int4_int8("int4", "int8") -> "bool";
            le_int8_int2("int8", "int2") -> "bool";
            le_int8_int4("int8", "int4") -> "bool";
            le_int8_int8("int8", "int8") -> "bool";
            gt_int2_int2("int2", "int2") -> "bool";
            gt_int2_int4("int2", "int4") -> "bool";
            gt_int2_int8("int2", "int8") -> "bool";
            gt_int4_int2("int4", "int2") -> "bool";
            gt_int4_int4("int4", "int4") -> "bool";
            gt_int4_int8("int4", "int8") -> "bool";
            gt_int8_int2("int8", "int2") -> "bool";
            gt_int8_int4("int8", "int4") -> "bool";
            gt_int8_int8("int8", "int8") -> "bool";
            ge_int2_int2("int2", "int2") -> "bool";
            ge_int2_int4("int2", "int4") -> "bool";
            ge_int2_int8("int2", "int8") -> "bool";
            ge_int4_int2("int4", "int2") -> "bool";
            ge_int4_int4("int4", "int4") -> "bool";
            ge_int4_int8("int4", "int8") -> "bool";
            ge_int8_int2("int8", "int2") -> "bool";
            ge_int8_int4("int8", "int4") -> "bool";
            ge_int8_int8("int8", "int8") -> "bool";
        }
    };
    // The rest of integers, and truth values.
    (integers, $callback:ident) => {
        $callback! {
            mod_int2_int2("int2", "int2") -> "int2";
            and_int2_int2("int2", "int2") -> "int2";
            or_int2_int2("int2", "int2") -> "int2";
            xor_int2_int2("int2", "int2") -> "int2";
            not_int2("int2") -> "int2";
            neg_int2("int2") -> "int2";
            plus_int2("int2") -> "int2";
            abs_int2("int2") -> "int2";
            shl_int2_int4("int2", "int4") -> "int2";
            shr_int2_int4("int2", "int4") -> "int2";
            mod_int4_int4("int4", "int4") -> "int4";
            and_int4_int4("int4", "int4") -> "int4";
            or_int4_int4("int4", "int4") -> "int4";
            xor_int4_int4("int4", "int4") -> "int4";
            not_int4("int4") -> "int4";
            neg_int4("int4") -> "int4";
            plus_int4("int4") -> "int4";
            abs_int4("int4") -> "int4";
            shl_int4_int4("int4", "int4") -> "int4";
            shr_int4_int4("int4", "int4") -> "int4";
            mod_int8_int8("int8", "int8") -> "int8";
            and_int8_int8("int8", "int8") -> "int8";
            or_int8_int8("int8", "int8") -> "int8";
            xor_int8_int8("int8", "int8") -> "int8";
            not_int8("int8") -> "int8";
            neg_int8("int8") -> "int8";
            plus_int8("int8") -> "int8";
            abs_int8("int8") -> "int8";
            shl_int8_int4("int8", "int4") -> "int8";
            shr_int8_int4("int8", "int4") -> "int8";
            int2_int4("int4") -> "int2";
            int2_int8("int8") -> "int2";
            int4_int2("int2") -> "int4";
            int4_int8("int8") -> "int4";
            int4_bool("bool") -> "int4";
            int8_int2("int2") -> "int8";
            int8_int4("int4") -> "int8";
            bool_int4("int4") -> "bool";
            to_hex_int4("int4") -> "text";
            to_hex_int8("int8") -> "text";
            eq_bool_bool("bool", "bool") -> "bool";
            ne_bool_bool("bool", "bool") -> "bool";
            lt_bool_bool("bool", "bool") -> "bool";
            le_bool_bool("bool", "bool") -> "bool";
            gt_bool_bool("bool", "bool") -> "bool";
            ge_bool_bool("bool", "bool") -> "bool";
        }
    };
    // Numbers with decimals.
    (numerics, $callback:ident) => {
        $callback! {
            add_numeric_numeric("numeric", "numeric") -> "numeric";
            sub_numeric_numeric("numeric", "numeric") -> "numeric";
            mul_numeric_numeric("numeric", "numeric") -> "numeric";
            div_numeric_numeric("numeric", "numeric") -> "numeric";
            mod_numeric_numeric("numeric", "numeric") -> "numeric";
            intdiv_numeric_numeric("numeric", "numeric") -> "numeric";
            eq_numeric_numeric("numeric", "numeric") -> "bool";
            ne_numeric_numeric("numeric", "numeric") -> "bool";
            lt_numeric_numeric("numeric", "numeric") -> "bool";
            le_numeric_numeric("numeric", "numeric") -> "bool";
            gt_numeric_numeric("numeric", "numeric") -> "bool";
            ge_numeric_numeric("numeric", "numeric") -> "bool";
            neg_numeric("numeric") -> "numeric";
            plus_numeric("numeric") -> "numeric";
            abs_numeric("numeric") -> "numeric";
            sign_numeric("numeric") -> "numeric";
            ceil_numeric("numeric") -> "numeric";
            floor_numeric("numeric") -> "numeric";
            trim_scale_numeric("numeric") -> "numeric";
            round_numeric("numeric") -> "numeric";
            round_numeric_int4("numeric", "int4") -> "numeric";
            trunc_numeric("numeric") -> "numeric";
            trunc_numeric_int4("numeric", "int4") -> "numeric";
            scale_numeric("numeric") -> "int4";
            numeric_int2("int2") -> "numeric";
            numeric_int4("int4") -> "numeric";
            numeric_int8("int8") -> "numeric";
            int2_numeric("numeric") -> "int2";
            int4_numeric("numeric") -> "int4";
            int8_numeric("numeric") -> "int8";
        }
    };
    // Texts and byte strings: joined, compared, matched, converted, measured.
    (texts, $callback:ident) => {
        $callback! {
            cat_text_text("text", "text") -> "text";
            cat_bytea_bytea("bytea", "bytea") -> "bytea";
            textany_text_anynonarray("text", "anynonarray") -> "text" stable;
            anytext_anynonarray_text("anynonarray", "text") -> "text" stable;
            eq_text_text("text", "text") -> "bool";
            eq_bpchar_bpchar("bpchar", "bpchar") -> "bool";
            eq_bytea_bytea("bytea", "bytea") -> "bool";
            ne_text_text("text", "text") -> "bool";
            ne_bpchar_bpchar("bpchar", "bpchar") -> "bool";
            ne_bytea_bytea("bytea", "bytea") -> "bool";
            lt_text_text("text", "text") -> "bool";
            lt_bpchar_bpchar("bpchar", "bpchar") -> "bool";
            lt_bytea_bytea("bytea", "bytea") -> "bool";
            le_text_text("text", "text") -> "bool";
            le_bpchar_bpchar("bpchar", "bpchar") -> "bool";
            le_bytea_bytea("bytea", "bytea") -> "bool";
            gt_text_text("text", "text") -> "bool";
            gt_bpchar_bpchar("bpchar", "bpchar") -> "bool";
            gt_bytea_bytea("bytea", "bytea") -> "bool";
            ge_text_text("text", "text") -> "bool";
            ge_bpchar_bpchar("bpchar", "bpchar") -> "bool";
            ge_bytea_bytea("bytea", "bytea") -> "bool";
            like_text_text("text", "text") -> "bool";
            like_bpchar_text("bpchar", "text") -> "bool";
            nlike_text_text("text", "text") -> "bool";
            nlike_bpchar_text("bpchar", "text") -> "bool";
            ilike_text_text("text", "text") -> "bool";
            ilike_bpchar_text("bpchar", "text") -> "bool";
            nilike_text_text("text", "text") -> "bool";
            nilike_bpchar_text("bpchar", "text") -> "bool";
            like_bytea_bytea("bytea", "bytea") -> "bool";
            nlike_bytea_bytea("bytea", "bytea") -> "bool";
            text_bpchar("bpchar") -> "text";
            text_bool("bool") -> "text";
            varchar_bpchar("bpchar") -> "varchar";
            varchar_bool("bool") -> "varchar";
            bpchar_bool("bool") -> "bpchar";
            length_text("text") -> "int4";
            length_bpchar("bpchar") -> "int4";
            length_bytea("bytea") -> "int4";
            octet_length_text("text") -> "int4";
            octet_length_bpchar("bpchar") -> "int4";
            octet_length_bytea("bytea") -> "int4";
        }
    };
    // Texts and byte strings: taken apart and rewritten.
    (edits, $callback:ident) => {
        $callback! {
            upper_text("text") -> "text";
            lower_text("text") -> "text";
            reverse_text("text") -> "text";
            substr_text_int4("text", "int4") -> "text";
            substr_text_int4_int4("text", "int4", "int4") -> "text";
            substr_bytea_int4("bytea", "int4") -> "bytea";
            substr_bytea_int4_int4("bytea", "int4", "int4") -> "bytea";
            strpos_text_text("text", "text") -> "int4";
            strpos_bytea_bytea("bytea", "bytea") -> "int4";
            left_text_int4("text", "int4") -> "text";
            right_text_int4("text", "int4") -> "text";
            repeat_text_int4("text", "int4") -> "text";
            lpad_text_int4("text", "int4") -> "text";
            lpad_text_int4_text("text", "int4", "text") -> "text";
            rpad_text_int4("text", "int4") -> "text";
            rpad_text_int4_text("text", "int4", "text") -> "text";
            ltrim_text("text") -> "text";
            ltrim_text_text("text", "text") -> "text";
            rtrim_text("text") -> "text";
            rtrim_text_text("text", "text") -> "text";
            btrim_text("text") -> "text";
            btrim_text_text("text", "text") -> "text";
            replace_text_text_text("text", "text", "text") -> "text";
            translate_text_text_text("text", "text", "text") -> "text";
            split_part_text_text_int4("text", "text", "int4") -> "text";
            starts_with_text_text("text", "text") -> "bool";
            ascii_text("text") -> "int4";
            chr_int4("int4") -> "text";
            concat_any("any") -> "text" variadic stable on_null;
            concat_ws_text_any("text", "any") -> "text" variadic stable on_null;
            encode_bytea_text("bytea", "text") -> "text";
            decode_text_text("text", "text") -> "bytea";
            get_byte_bytea_int4("bytea", "int4") -> "int4";
            set_byte_bytea_int4_int4("bytea", "int4", "int4") -> "bytea";
        }
    };
    // Dates.
    (dates, $callback:ident) => {
        $callback! {
            eq_date_date("date", "date") -> "bool";
            ne_date_date("date", "date") -> "bool";
            lt_date_date("date", "date") -> "bool";
            le_date_date("date", "date") -> "bool";
            gt_date_date("date", "date") -> "bool";
            ge_date_date("date", "date") -> "bool";
            add_date_int4("date", "int4") -> "date";
            add_int4_date("int4", "date") -> "date";
            sub_date_int4("date", "int4") -> "date";
            sub_date_date("date", "date") -> "int4";
            make_date_int4_int4_int4("int4", "int4", "int4") -> "date";
            extract_text_date("text", "date") -> "numeric";
        }
    };
    // Arrays.
    (arrays, $callback:ident) => {
        $callback! {
            eq_anyarray_anyarray("anyarray", "anyarray") -> "bool";
            ne_anyarray_anyarray("anyarray", "anyarray") -> "bool";
            lt_anyarray_anyarray("anyarray", "anyarray") -> "bool";
            le_anyarray_anyarray("anyarray", "anyarray") -> "bool";
            gt_anyarray_anyarray("anyarray", "anyarray") -> "bool";
            ge_anyarray_anyarray("anyarray", "anyarray") -> "bool";
            contains_anyarray_anyarray("anyarray", "anyarray") -> "bool";
            contained_anyarray_anyarray("anyarray", "anyarray") -> "bool";
            overlaps_anyarray_anyarray("anyarray", "anyarray") -> "bool";
            array_cat_anycompatiblearray_anycompatiblearray("anycompatiblearray", "anycompatiblearray") -> "anycompatiblearray" on_null;
            array_append_anycompatiblearray_anycompatible("anycompatiblearray", "anycompatible") -> "anycompatiblearray" on_null;
            array_remove_anycompatiblearray_anycompatible("anycompatiblearray", "anycompatible") -> "anycompatiblearray" on_null;
            array_prepend_anycompatible_anycompatiblearray("anycompatible", "anycompatiblearray") -> "anycompatiblearray" on_null;
            array_replace_anycompatiblearray_anycompatible_anycompatible("anycompatiblearray", "anycompatible", "anycompatible") -> "anycompatiblearray" on_null;
            array_position_anycompatiblearray_anycompatible("anycompatiblearray", "anycompatible") -> "int4" on_null;
            array_positions_anycompatiblearray_anycompatible("anycompatiblearray", "anycompatible") -> "int4[]" on_null;
            array_length_anyarray_int4("anyarray", "int4") -> "int4";
            array_upper_anyarray_int4("anyarray", "int4") -> "int4";
            array_lower_anyarray_int4("anyarray", "int4") -> "int4";
            array_ndims_anyarray("anyarray") -> "int4";
            cardinality_anyarray("anyarray") -> "int4";
            trim_array_anyarray_int4("anyarray", "int4") -> "anyarray";
            array_to_string_anyarray_text("anyarray", "text") -> "text" stable;
            array_to_string_anyarray_text_text("anyarray", "text", "text") -> "text" stable on_null;
            string_to_array_text_text("text", "text") -> "text[]" on_null;
            string_to_array_text_text_text("text", "text", "text") -> "text[]" on_null;
        }
    };
    // Ranges.
    (ranges, $callback:ident) => {
        $callback! {
            int4range_int4_int4("int4", "int4") -> "int4range" on_null;
            int4range_int4_int4_text("int4", "int4", "text") -> "int4range" on_null;
            int8range_int8_int8("int8", "int8") -> "int8range" on_null;
            int8range_int8_int8_text("int8", "int8", "text") -> "int8range" on_null;
            daterange_date_date("date", "date") -> "daterange" on_null;
            daterange_date_date_text("date", "date", "text") -> "daterange" on_null;
            eq_anyrange_anyrange("anyrange", "anyrange") -> "bool";
            ne_anyrange_anyrange("anyrange", "anyrange") -> "bool";
            lt_anyrange_anyrange("anyrange", "anyrange") -> "bool";
            le_anyrange_anyrange("anyrange", "anyrange") -> "bool";
            gt_anyrange_anyrange("anyrange", "anyrange") -> "bool";
            ge_anyrange_anyrange("anyrange", "anyrange") -> "bool";
            contains_anyrange_anyrange("anyrange", "anyrange") -> "bool";
            contained_anyrange_anyrange("anyrange", "anyrange") -> "bool";
            overlaps_anyrange_anyrange("anyrange", "anyrange") -> "bool";
            before_anyrange_anyrange("anyrange", "anyrange") -> "bool";
            after_anyrange_anyrange("anyrange", "anyrange") -> "bool";
            notright_anyrange_anyrange("anyrange", "anyrange") -> "bool";
            notleft_anyrange_anyrange("anyrange", "anyrange") -> "bool";
            adjacent_anyrange_anyrange("anyrange", "anyrange") -> "bool";
            contains_anyrange_anyelement("anyrange", "anyelement") -> "bool";
            contained_anyelement_anyrange("anyelement", "anyrange") -> "bool";
            union_anyrange_anyrange("anyrange", "anyrange") -> "anyrange";
            intersect_anyrange_anyrange("anyrange", "anyrange") -> "anyrange";
            minus_anyrange_anyrange("anyrange", "anyrange") -> "anyrange";
            range_merge_anyrange_anyrange("anyrange", "anyrange") -> "anyrange";
            lower_anyrange("anyrange") -> "anyelement";
            upper_anyrange("anyrange") -> "anyelement";
            isempty_anyrange("anyrange") -> "bool";
            lower_inc_anyrange("anyrange") -> "bool";
            upper_inc_anyrange("anyrange") -> "bool";
            lower_inf_anyrange("anyrange") -> "bool";
            upper_inf_anyrange("anyrange") -> "bool";
        }
    };
}
