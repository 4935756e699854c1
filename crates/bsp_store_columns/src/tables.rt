//! The tables of a book's store, each described once, in the module of its name: its name, the number of its tree, the
//! columns of its key, and its other columns. A column has its place from 1, its name, its type, NOT NULL where it must have
//! a value, and the table to whose `code` it refers. [`of_table`](crate::of_table) has what follows from a description.
//!
//! Beside its description a module has the row of an entry of the table: the values of its columns, the cells that are
//! written, and the entry that is read back.

mod agent;
mod airline;
mod commission_tax;
pub(crate) mod item;
mod item_tax;
mod memo;
pub(crate) mod meta;
mod period;
mod rate;
mod second_related;
mod stock;
pub(crate) mod tally;
mod tally_tax;
mod terms;

/// The table of a name, as the rule of [`of_table`](crate::of_table) that is named writes it: `table!(agent, insert)` is
/// the text that adds an agent.
#[macro_export]
macro_rules! table {
    (meta, $($rule:tt)*) => { $crate::meta_table! { $($rule)* } };
    (terms, $($rule:tt)*) => { $crate::terms_table! { $($rule)* } };
    (airline, $($rule:tt)*) => { $crate::airline_table! { $($rule)* } };
    (rate, $($rule:tt)*) => { $crate::rate_table! { $($rule)* } };
    (period, $($rule:tt)*) => { $crate::period_table! { $($rule)* } };
    (agent, $($rule:tt)*) => { $crate::agent_table! { $($rule)* } };
    (stock, $($rule:tt)*) => { $crate::stock_table! { $($rule)* } };
    (item, $($rule:tt)*) => { $crate::item_table! { $($rule)* } };
    (memo, $($rule:tt)*) => { $crate::memo_table! { $($rule)* } };
    (tally, $($rule:tt)*) => { $crate::tally_table! { $($rule)* } };
    (commission_tax, $($rule:tt)*) => { $crate::commission_tax_table! { $($rule)* } };
    (item_tax, $($rule:tt)*) => { $crate::item_tax_table! { $($rule)* } };
    (tally_tax, $($rule:tt)*) => { $crate::tally_tax_table! { $($rule)* } };
    (second_related, $($rule:tt)*) => { $crate::second_related_table! { $($rule)* } };
}

/// What follows from the description of a table: its name, how many columns its key has (`key_width`), its form and that
/// of the index of its key, and the texts of its statements. `select` asks for all rows in the order of their keys,
/// `placed` in that of their places, `all` in any. `create` is for this table and then for what is in brackets: the names of
/// other tables, and a text.
#[macro_export]
macro_rules! of_table {
    (name $table:literal $($rest:tt)*) => { $table };
    (key_width $table:literal $tree:literal ($($key_at:literal $key:literal $key_is:tt),*) $others:tt) => {
        [$($key_at),*].len()
    };
    (form $table:literal $tree:literal
        ($($key_at:literal $key:literal [$key_kind:ident NOT NULL $(REFERENCES $key_parent:literal)?]),*)
        ($($at:literal $name:literal [$kind:ident $(NOT $null:ident)? $(REFERENCES $parent:literal)?]),*)) => {
        ($table, $tree,
            &[$(($key, $crate::of_table!(kind $key_kind), true),)*
                $(($name, $crate::of_table!(kind $kind), $crate::of_table!(is_not $($null)?)),)*],
            &[$($(($key_at, $key_parent),)?)* $($(($at, $parent),)?)*],
            &[$($key_at),*])
    };
    (kind TEXT) => { Kind::Text };
    (kind $integer:ident) => { Kind::Integer };
    (is_not) => { false };
    (is_not NULL) => { true };
    (index $table:literal $tree:literal ($($key_at:literal $key:literal $key_is:tt),*) $others:tt) => {
        (concat!("sqlite_autoindex_", $table, "_1"), $tree + 1, $tree, &[$($key_at),*])
    };
    (insert $table:literal $tree:literal
        ($key_at:literal $key:literal $key_is:tt $(, $at:literal $name:literal $is:tt)*)
        ($($more_at:literal $more:literal $more_is:tt),*)) => {
        concat!("INSERT INTO ", $table, " (", $key $(, ", ", $name)* $(, ", ", $more)*,
            ") VALUES (?", $key_at $(, ", ?", $at)* $(, ", ?", $more_at)*, ")")
    };
    (update $table:literal $tree:literal
        ($key_at:literal $key:literal $key_is:tt $(, $at:literal $name:literal $is:tt)*)
        ($next_at:literal $next:literal $next_is:tt $(, $more_at:literal $more:literal $more_is:tt)*)) => {
        concat!("UPDATE ", $table, " SET ", $next, " = ?", $next_at $(, ", ", $more, " = ?", $more_at)*,
            " WHERE ", $key, " = ?", $key_at $(, " AND ", $name, " = ?", $at)*)
    };
    (delete $table:literal $tree:literal
        ($key_at:literal $key:literal $key_is:tt $(, $at:literal $name:literal $is:tt)*) $others:tt) => {
        concat!("DELETE FROM ", $table, " WHERE ", $key, " = ?", $key_at $(, " AND ", $name, " = ?", $at)*)
    };
    (select $table:literal $tree:literal
        ($key_at:literal $key:literal $key_is:tt $(, $at:literal $name:literal $is:tt)*)
        ($($more_at:literal $more:literal $more_is:tt),*)) => {
        concat!("SELECT ", $key $(, ", ", $name)* $(, ", ", $more)*, " FROM ", $table, " ORDER BY ", $key $(, ", ", $name)*)
    };
    (placed $table:literal $tree:literal
        ($key_at:literal $key:literal $key_is:tt $(, $at:literal $name:literal $is:tt)*)
        ($($more_at:literal $more:literal $more_is:tt),*)) => {
        concat!("SELECT ", $key $(, ", ", $name)* $(, ", ", $more)*, " FROM ", $table, " ORDER BY place")
    };
    (all $table:literal $tree:literal
        ($key_at:literal $key:literal $key_is:tt $(, $at:literal $name:literal $is:tt)*)
        ($($more_at:literal $more:literal $more_is:tt),*)) => {
        concat!("SELECT ", $key $(, ", ", $name)* $(, ", ", $more)*, " FROM ", $table)
    };
    (create [$($after:tt)*] {$($before:tt)*} $table:literal $tree:literal
        ($key_at:literal $key:literal [$key_kind:ident NOT NULL])
        ($($at:literal $name:literal [$kind:ident $(NOT $null:ident)? $(REFERENCES $parent:literal)?]),*)) => {
        $crate::of_table! { then [$($after)*] {$($before)*
            "CREATE TABLE ", $table, " (", $key, " ", stringify!($key_kind), " NOT NULL PRIMARY KEY",
            $(", ", $name, " ", stringify!($kind), $(" NOT ", stringify!($null),)? $(" REFERENCES ", $parent, " (code)",)?)*
            ") STRICT"} }
    };
    (create [$($after:tt)*] {$($before:tt)*} $table:literal $tree:literal
        ($first_at:literal $first:literal [$first_kind:ident NOT NULL $(REFERENCES $first_parent:literal)?]
            $(, $key_at:literal $key:literal [$key_kind:ident NOT NULL])*)
        ($($at:literal $name:literal [$kind:ident $(NOT $null:ident)? $(REFERENCES $parent:literal)?]),*)) => {
        $crate::of_table! { then [$($after)*] {$($before)*
            "CREATE TABLE ", $table, " (", $first, " ", stringify!($first_kind), " NOT NULL",
            $(" REFERENCES ", $first_parent, " (code)",)? $(", ", $key, " ", stringify!($key_kind), " NOT NULL",)*
            $(", ", $name, " ", stringify!($kind), $(" NOT ", stringify!($null),)? $(" REFERENCES ", $parent, " (code)",)?)*
            ", PRIMARY KEY (", $first, $(", ", $key,)* ")) STRICT"} }
    };
    (then [$table:ident $($after:tt)*] {$($before:tt)*}) => {
        $crate::table!($table, create [$($after)*] {$($before)*, "; ",})
    };
    (then [$last:literal] {$($before:tt)*}) => { concat!($($before)*, "; ", $last) };
    (then [] {$($before:tt)*}) => { concat!($($before)*) };
}
