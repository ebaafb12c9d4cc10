//! The greatest counts of ways, by how these end.

ghost use Rattle.std.specs.Prelude.{◌≡◌, None, Some};
ghost use Rattle.psy_flow.specs.Tops as tops;
ghost use Rattle.psy_flow.specs.Tops.{capped_tops, capped_count};

use crate::gauge::Gauge;

/// The greatest counts of the ways to each end; none where there is no way.
#[derive(Clone, Copy, Debug)]
pub struct Tops {
    /// Behind the statements.
    pub fell: Option<u64>,
    /// Back in the caller.
    pub back: Option<u64>,
    /// At a point.
    pub to: Option<u64>,
}

/// There is no way.
pub const NO_WAY: Tops = Tops {
    fell: None,
    back: None,
    to: None,
};

fn greater(this: Option<u64>, that: Option<u64>) -> Option<u64>
    ensures { result ≡ tops.greater this that }
{
    match (this, that) {
        (None, _) => that,
        (Some(_), None) => this,
        (Some(a), Some(b)) => Some(a.max(b)),
    }
}

fn plus(gauge: Gauge, count: u64, top: Option<u64>) -> Option<u64>
    ensures { result ≡ capped_count gauge (tops.plus count top) }
{
    match top {
        None => None,
        Some(more) => Some(gauge.sum(count, more)),
    }
}

impl Tops {
    pub fn falling(count: u64) -> Tops
        ensures { result ≡ tops.falling count }
    {
        Tops {
            fell: Some(count),
            ..NO_WAY
        }
    }

    pub fn returning(count: u64) -> Tops
        ensures { result ≡ tops.returning count }
    {
        Tops {
            back: Some(count),
            ..NO_WAY
        }
    }

    pub fn reaching(count: u64) -> Tops
        ensures { result ≡ tops.reaching count }
    {
        Tops {
            to: Some(count),
            ..NO_WAY
        }
    }

    /// Behind a way with a count.
    pub fn behind(self, gauge: Gauge, count: u64) -> Tops
        ensures { result ≡ capped_tops gauge (tops.behind count self) }
    {
        Tops {
            fell: plus(gauge, count, self.fell),
            back: plus(gauge, count, self.back),
            to: plus(gauge, count, self.to),
        }
    }

    /// This way or that.
    pub fn or_else(self, that: Tops) -> Tops
        ensures { result ≡ tops.or_else self that }
    {
        Tops {
            fell: greater(self.fell, that.fell),
            back: greater(self.back, that.back),
            to: greater(self.to, that.to),
        }
    }

    /// These ways, and where they fall through the others behind them.
    pub fn and_on(self, gauge: Gauge, second: Tops) -> Tops
        ensures { result ≡ tops.or_else (capped_tops gauge (tops.on_from self.fell second)) (tops.leaving self) }
    {
        let leaving = Tops { fell: None, ..self };
        match self.fell {
            None => leaving,
            Some(count) => second.behind(gauge, count).or_else(leaving),
        }
    }
}
