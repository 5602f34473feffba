// The kinds of charts that are compared.
use std::fmt;

#[derive(Clone, Copy)]
pub(crate) enum Kind {
    Filed,
    Large,
    Counter,
    LongCounter,
    FiledCounter,
    CounterCounter,
    FiledFiled,
    PairPair,
}

impl fmt::Display for Kind {
    fn fmt<W: fmt::Write>(&self, f: &mut fmt::Formatter<W>) -> fmt::Result {
        f.write_str(match self {
            Kind::Filed => "filed",
            Kind::Large => "filed of 256 modes",
            Kind::Counter => "counter",
            Kind::LongCounter => "long counter",
            Kind::FiledCounter => "filed and counter",
            Kind::CounterCounter => "counter and counter",
            Kind::FiledFiled => "filed and filed",
            Kind::PairPair => "pair and pair",
        })
    }
}

// The kind of the chart with this number: two in ten are pairs or counters, and two in fifty are large.
pub(crate) fn kind_of(number: u32) -> Kind {
    match number % 50 {
        22 => return Kind::LongCounter,
        47 => return Kind::Large,
        _ => {}
    }
    match number % 30 {
        4 => Kind::Counter,
        9 => Kind::FiledCounter,
        14 => Kind::CounterCounter,
        20 => Kind::FiledFiled,
        24 => Kind::PairPair,
        28 => Kind::FiledFiled,
        _ => Kind::Filed,
    }
}
