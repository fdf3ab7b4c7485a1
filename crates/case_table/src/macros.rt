/// Reads the record at a place of some bytes, and binds its fields to names: where it is short, `?`
/// returns what `From<Short>` makes of the place. `take_fields!(layout, bytes, at => version, flags);`
#[macro_export]
macro_rules! take_fields {
    ($layout:expr, $bytes:expr, $at:expr => $($field:ident),+ $(,)?) => {
        let [$($field),+] = $layout.take_record($bytes, $at)?;
    };
}

/// Appends a record to bytes, its fields named in order: `put_fields!(layout, out => version, flags)?`.
#[macro_export]
macro_rules! put_fields {
    ($layout:expr, $out:expr => $($field:expr),+ $(,)?) => {
        $layout.put_record($out, &[$(u64::from($field)),+])
    };
}

/// The first row of a table that hits in a state, where each fact is named with its test:
/// `check_rows!(cases, state; CONTENT => content != word, REDZONE => redzone != mark)`.
#[macro_export]
macro_rules! check_rows {
    ($cases:expr, $state:expr; $($fact:expr => $test:expr),+ $(,)?) => {
        $cases.first_hit($state, 0 $(| $crate::fact_if($test, $fact))+)
    };
}
