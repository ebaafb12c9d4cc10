//! The forms of lines: what stands in a line of each.
ghost use Rattle.std.specs.Prelude.{◌≡◌, map};
ghost use Rattle.psy_log.specs.Table.{fields_of, place_of};

use self::Field::{Any, Word};
use self::Sort::{Kind, Long, LongOrDash, Name, Short, ShortOrDash, Value};

/// The sorts of what is said in a line.
#[derive(Clone, Copy, Debug, PartialEq, Eq)]
pub enum Sort {
    /// A number of 32 bits.
    Short,
    /// A number of 64 bits.
    Long,
    /// A value of 32 bits, with a minus where it is below 0.
    Value,
    /// A name.
    Name,
    /// A number of 32 bits, or `-` for none.
    ShortOrDash,
    /// A number of 64 bits, or `-` for none.
    LongOrDash,
    /// The name of a kind of trap.
    Kind,
}

/// What stands at a place of a line.
#[derive(Clone, Copy, Debug, PartialEq, Eq)]
pub enum Field {
    /// This word.
    Word(&'static [u8]),
    /// Anything of this sort.
    Any(Sort),
}

/// The form of a line.
#[derive(Clone, Copy, Debug, PartialEq, Eq)]
pub enum Form {
    /// `DATE stop AGENT overrun`
    StopOverrun,
    /// `DATE stop AGENT trap KIND`
    StopTrap,
    /// `DATE VARIABLE VALUE`
    Value,
    /// `DATE STREAM msg VALUE`
    Message,
    /// `end UNTIL`
    End,
    /// `agent AGENT COUNT SLACK`
    AgentEnd,
    /// `variable VARIABLE SIZE REACH`
    VariableEnd,
    /// `stream STREAM SIZE HELD`
    StreamEnd,
    /// `variable VARIABLE SIZE`
    VariableSize,
    /// `stream STREAM SIZE`
    StreamSize,
    /// `rate AGENT RATE INTERCEPT`
    Rate,
    /// `feasible always`
    Always,
    /// `feasible UNTIL`
    Feasible,
    /// `infeasible LENGTH DEMAND SUPPLY`
    Infeasible,
    /// `infeasible LENGTH DEMAND SUPPLY on PROCESSOR`
    InfeasibleOn,
    /// `agent AGENT NODES EDGES`
    AgentGraph,
    /// `node NUMBER POINT PHASE BUDGET WORST DUE`
    Node,
    /// `edge FROM TO LEN`
    EdgeOf,
    /// `words`
    Words,
    /// `read FILE`
    Read,
    /// `limit NAME NUMBER`
    Limit,
    /// `refused WHAT NUMBER`
    Refused,
    /// `refused WHAT NUMBER at PLACE`
    RefusedAt,
    /// `refused image PLACE`
    RefusedImage,
    /// `busy AGENT`
    Busy,
    /// `legal ACTS LOOKS`
    Legal,
}

impl Form {
    /// What stands in a line of this form, place by place: the table of the forms of lines.
    pub fn fields(self) -> &'static [Field]
        ensures { map place_of result.now ≡ fields_of self }
    {
        match self {
            Form::StopOverrun => &[Any(Long), Word(b"stop"), Any(Name), Word(b"overrun")],
            Form::StopTrap => &[
                Any(Long),
                Word(b"stop"),
                Any(Name),
                Word(b"trap"),
                Any(Kind),
            ],
            Form::Value => &[Any(Long), Any(Name), Any(Value)],
            Form::Message => &[Any(Long), Any(Name), Word(b"msg"), Any(Value)],
            Form::End => &[Word(b"end"), Any(Long)],
            Form::AgentEnd => &[Word(b"agent"), Any(Name), Any(Long), Any(LongOrDash)],
            Form::VariableEnd => &[Word(b"variable"), Any(Name), Any(Short), Any(ShortOrDash)],
            Form::StreamEnd => &[Word(b"stream"), Any(Name), Any(Short), Any(Short)],
            Form::VariableSize => &[Word(b"variable"), Any(Name), Any(Short)],
            Form::StreamSize => &[Word(b"stream"), Any(Name), Any(Short)],
            Form::Rate => &[Word(b"rate"), Any(Name), Any(Long), Any(Long)],
            Form::Always => &[Word(b"feasible"), Word(b"always")],
            Form::Feasible => &[Word(b"feasible"), Any(Long)],
            Form::Infeasible => &[Word(b"infeasible"), Any(Long), Any(Long), Any(Long)],
            Form::InfeasibleOn => &[
                Word(b"infeasible"),
                Any(Long),
                Any(Long),
                Any(Long),
                Word(b"on"),
                Any(Short),
            ],
            Form::AgentGraph => &[Word(b"agent"), Any(Name), Any(Short), Any(Short)],
            Form::Node => &[
                Word(b"node"),
                Any(Short),
                Any(Short),
                Any(Long),
                Any(Short),
                Any(Long),
                Any(Long),
            ],
            Form::EdgeOf => &[Word(b"edge"), Any(Short), Any(Short), Any(Long)],
            Form::Words => &[Word(b"words")],
            Form::Read => &[Word(b"read"), Any(Name)],
            Form::Limit => &[Word(b"limit"), Any(Name), Any(Long)],
            Form::Refused => &[Word(b"refused"), Any(Name), Any(Short)],
            Form::RefusedAt => &[
                Word(b"refused"),
                Any(Name),
                Any(Short),
                Word(b"at"),
                Any(Short),
            ],
            Form::RefusedImage => &[Word(b"refused"), Word(b"image"), Any(Short)],
            Form::Busy => &[Word(b"busy"), Any(Name)],
            Form::Legal => &[Word(b"legal"), Any(Short), Any(Short)],
        }
    }
}
