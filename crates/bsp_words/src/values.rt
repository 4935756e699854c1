//! The values that `clap` found of an argument.

ghost use Rattle.std.specs.Prelude.{◌≡◌, codes, is_some, option_map};
ghost use Rattle.clap.specs.Words.{all_of, first_of, found_of, rows_of};
ghost use Rattle.bsp_words.specs.CommandLine.{is_set, number_in, texts_in, values_in};

use clap::ArgMatches;

/// The first value of an argument.
pub(crate) fn value_of<'a>(matches: &ArgMatches<'a>, id: &str) -> Option<&'a str>
    ensures { option_map (λ s. s.now) result ≡ first_of id.now (rows_of (found_of matches.now)) }
{
    matches.get_str(id)
}

/// Whether a flag is there.
pub(crate) fn flag_given(matches: &ArgMatches<'_>, id: &str) -> bool
    ensures { result ≡ is_set id.now (rows_of (found_of matches.now)) }
{
    matches!(value_of(matches, id), Some("true"))
}

/// The values of an argument that may come more than once.
pub(crate) fn values_of<'m, 'a>(matches: &'m ArgMatches<'a>, id: &str) -> &'m [&'a str]
    ensures { texts_in result.now ≡ values_in id.now (rows_of (found_of matches.now)) }
{
    matches.get_strs(id).unwrap_or_default()
}

/// Whether an argument that may come more than once is there.
pub(crate) fn has_values(matches: &ArgMatches<'_>, id: &str) -> bool
    ensures { result ≡ is_some (all_of id.now (rows_of (found_of matches.now))) }
{
    matches.get_strs(id).is_some()
}

/// The port.
pub(crate) fn port_given(matches: &ArgMatches<'_>) -> Option<u16>
    ensures { result ≡ number_in 16 (codes "port") (rows_of (found_of matches.now)) }
{
    matches.get_one::<u16>("port")
}

/// The number that an argument gives.
pub(crate) fn number_given(matches: &ArgMatches<'_>, id: &str) -> Option<u32>
    ensures { result ≡ number_in 32 id.now (rows_of (found_of matches.now)) }
{
    matches.get_one::<u32>(id)
}
