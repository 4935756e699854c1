//! The field `Host` of a request (RFC 9110, 7.2; RFC 9112, 3.2).
//!
//! Its value is a host, with a port or without (RFC 3986, 3.2.2 and 3.2.3).
ghost use Rattle.std.specs.Prelude.{◌≡◌, ◌==◌, ◌&&◌, ◌||◌, ◌↔◌, IsTrue, ℕ, List};
ghost use Rattle.std.specs.List.{list_all};
ghost use Rattle.std.specs.Net.Grammar.{IsColonHex};
ghost use Rattle.std.specs.Char.{is_ascii_digit, is_ascii_hexdigit};
ghost use Rattle.bsp_routes.specs.Found.{IsFound};
ghost use Rattle.bsp_routes.specs.Hosts.{is_name_byte, begins_with_hex, is_name, is_filled, is_address, is_later_byte, is_versioned, is_literal, is_bare_host, is_host, are_hosts};

use crate::named::Found;
use memchr::{memchr, memrchr};
use std::net::Ipv6Addr;

/// Whether the byte is an unreserved character or a sub-delimiter.
fn is_name_byte(b: u8) -> bool
    ensures { result ≡ is_name_byte b }
{
    b.is_ascii_alphanumeric() || matches!(b, b'!' | b'$' | b'&'..=b'.' | b';' | b'=' | b'_' | b'~')
}

fn begins_with_hex(text: &[u8]) -> bool
    ensures { result ≡ begins_with_hex text.now }
{
    match text {
        [high, low, ..] => high.is_ascii_hexdigit() && low.is_ascii_hexdigit(),
        _ => false,
    }
}

/// Whether a name may have the byte, with that text behind it.
fn is_in_name(b: u8, text: &[u8]) -> bool
    ensures { result ≡ (is_name_byte b || (b == 37 && begins_with_hex text.now)) }
{
    is_name_byte(b) || b == b'%' && begins_with_hex(text)
}

/// Whether the text is a registered name, as an IPv4 address is. It may be empty.
fn is_name(text: &[u8]) -> bool
    ensures { result ≡ is_name text.now }
{
    for (i, b) in text.iter().enumerate() {
        if !is_in_name(*b, &text[i + 1..]) {
            return false;
        }
    }
    true
}

fn is_later_byte(b: u8) -> bool
    ensures { result ≡ is_later_byte b }
{
    is_name_byte(b) || b == b':'
}

/// Whether the text is an address of version 6.
fn is_address(text: &[u8]) -> bool
    ensures value { result ≡ is_address text.now }
    ensures grammar { IsTrue result ↔ ((segments : List ℕ) × IsColonHex text.now segments) }
{
    Ipv6Addr::parse_ascii(text).is_ok()
}

fn is_version(text: &[u8]) -> bool
    ensures { result ≡ is_filled is_ascii_hexdigit text.now }
{
    !text.is_empty() && text.iter().all(|b| b.is_ascii_hexdigit())
}

fn is_of_version(text: &[u8]) -> bool
    ensures { result ≡ is_filled is_later_byte text.now }
{
    !text.is_empty() && text.iter().all(|b| is_later_byte(*b))
}

fn is_port(text: &[u8]) -> bool
    ensures { result ≡ list_all is_ascii_digit text.now }
{
    text.iter().all(|b| b.is_ascii_digit())
}

/// Whether the text is a version and its address.
fn is_versioned(text: &[u8]) -> bool
    ensures { result ≡ is_versioned text.now }
{
    match memchr(b'.', text) {
        Some(dot) => is_version(&text[..dot]) && is_of_version(&text[dot + 1..]),
        None => false,
    }
}

/// Whether the text is an address in brackets.
fn is_literal(text: &[u8]) -> bool
    ensures { result ≡ is_literal text.now }
{
    match text {
        [b'[', b'v' | b'V', inner @ .., b']'] => is_versioned(inner),
        [b'[', inner @ .., b']'] => is_address(inner),
        _ => false,
    }
}

fn is_bare_host(text: &[u8]) -> bool
    ensures { result ≡ is_bare_host text.now }
{
    is_literal(text) || is_name(text)
}

/// Whether the text is a host, with a port or without.
fn is_host(value: &[u8]) -> bool
    ensures { result ≡ is_host value.now }
{
    is_bare_host(value)
        || match memrchr(b':', value) {
            Some(colon) => is_bare_host(&value[..colon]) && is_port(&value[colon + 1..]),
            None => false,
        }
}

/// Whether the `Host` fields are as HTTP/1.`minor` asks.
pub(crate) fn are_hosts(minor: u8, text: &[u8], hosts: Found) -> bool
    requires { (values : List (List ℕ)) × IsFound text.now values hosts }
    ensures { (values : List (List ℕ)) → IsFound text.now values hosts → result ≡ are_hosts minor values }
{
    match hosts {
        Found::Nothing => minor != 1,
        Found::One(value) => is_host(value.of(text)),
        Found::Several => false,
    }
}
