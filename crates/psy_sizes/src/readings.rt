//! What lists of ways tell: which points look, who sends how much, and how long messages take to be visible.

ghost use Rattle.std.specs.Prelude.{◌≡◌, ◌↔◌, ◌==◌, ◌&&◌, ◌<◌, ◌≤◌, [], get_or, length, IsTrue};
ghost use Rattle.std.specs.List.{All, Contains, list_any};
ghost use Rattle.psy_base.specs.declared.limits.TheConstants.{SENDS};
ghost use Rattle.psy_base.specs.declared.ways.SendWay.{SendWay as Listing};
ghost use Rattle.psy_meaning.specs.KnownWays as known;
ghost use Rattle.psy_meaning.specs.KnownWays.{HasMost, Listed, Looks, any_to, delay_by, most_in};

use psy_base::{Items, SendWay, Ways};

/// Whether a number is one of these.
fn is_listed(numbers: &[u32], number: u32) -> bool
    ensures { IsTrue result ↔ Contains numbers.now number }
{
    numbers.iter().any(|n| *n == number)
}

/// Whether a way from a point of an agent looks at a variable.
pub fn looks(ways: &Ways, agent: u32, point: u32, variable: u32) -> bool
    requires agent { agent < length ways.now.looks }
    requires point { point < length (get_or ways.now.looks agent []) }
    ensures { IsTrue result ↔ Looks (Listed ways.now) agent point variable }
{
    let points = ways.looks.as_slice()[agent as usize].as_slice();
    is_listed(points[point as usize].as_slice(), variable)
}

/// Whether these sends are to a stream, on ways to a point.
fn is_to(way: &SendWay, to: u32, stream: u32) -> bool
    ensures { result ≡ (way.now.to == to && way.now.stream == stream) }
{
    way.to == to && way.stream == stream
}

/// The most sends to a stream on a way to a point, by those of all ways.
fn most_to(sends: &[SendWay], to: u32, stream: u32) -> u64
    requires { All (λ way. way.most ≤ SENDS) sends.now }
    ensures most { result ≡ most_in sends.now to stream }
    ensures small { result ≤ SENDS }
{
    'ways: for way in sends {
        if is_to(way, to, stream) {
            return way.most;
        }
    }
    0
}

/// The most sends to a stream on a way from a point of an agent to another.
pub fn most(ways: &Ways, agent: u32, from: u32, to: u32, stream: u32) -> u64
    requires agent { agent < length ways.now.sends }
    requires point { from < length (get_or ways.now.sends agent []) }
    requires cut { All (λ way. way.most ≤ SENDS) (get_or (get_or ways.now.sends agent []) from []) }
    ensures most { HasMost (Listed ways.now) agent from to stream result }
    ensures small { result ≤ SENDS }
{
    let points = ways.sends.as_slice()[agent as usize].as_slice();
    most_to(points[from as usize].as_slice(), to, stream)
}

/// Whether one of these sends is to a stream.
fn is_any(sends: &[SendWay], stream: u32) -> bool
    ensures { result ≡ list_any (λ (way : Listing). way.stream == stream) sends.now }
{
    sends.iter().any(|way| way.stream == stream)
}

/// Whether one of the sends from these points is.
fn is_any_from(points: &[Items<SendWay>], stream: u32) -> bool
    ensures { result ≡ any_to stream points.now }
{
    points.iter().any(|sends| is_any(sends.as_slice(), stream))
}

/// Whether an agent sends to a stream.
pub fn sends_to(ways: &Ways, agent: u32, stream: u32) -> bool
    requires { agent < length ways.now.sends }
    ensures { result ≡ known.sends_to (Listed ways.now) agent stream }
{
    is_any_from(ways.sends.as_slice()[agent as usize].as_slice(), stream)
}

/// Whether somebody sends to a stream.
pub fn is_sent(ways: &Ways, stream: u32) -> bool
    ensures { result ≡ known.is_sent (Listed ways.now) stream }
{
    ways.sends
        .as_slice()
        .iter()
        .any(|points| is_any_from(points.as_slice(), stream))
}

/// The greatest delay of the sends to a stream.
pub fn delay(ways: &Ways, stream: u32) -> u64
    requires { stream < length ways.now.delays }
    ensures { result ≡ delay_by (Listed ways.now) stream }
{
    ways.delays.as_slice()[stream as usize]
}
