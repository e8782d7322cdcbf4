// Adding attributes to a record, one at a time (document 01, "The record").
// An attribute's number is bounded where it is used: it indexes the one table of bounds, and loops count over it.
ghost use Rattle.std.specs.Prelude.{◌≡◌, ◌<◌};
ghost use Rattle.oraddr.specs.Add.{add_dd, add_single, add_unit, place_of, told};
ghost use Rattle.oraddr.specs.Bounds.{single_count};

use crate::bounds::{DD_TYPE, DD_VALUE, MOST, OU, is_value, keeps_rule};
use crate::record::Record;
use crate::value::{DdType, DdValue, DomainDefined, OrgUnit, Value};

// An attribute that a record has once. They stand in the order of their numbers in the table of bounds.
#[derive(Clone, Copy)]
pub enum Attribute {
    C,
    Admd,
    Prmd,
    O,
    Cn,
    S,
    G,
    I,
    Gq,
}

// The answer to an addition: done, document 01's number 0, or refused, its number 4.
#[derive(Clone, Copy)]
pub enum Added {
    Done,
    Refused,
}

// The record after an addition, or the record as it was where it is refused.
#[derive(Clone, Copy)]
pub struct Addition {
    pub record: Record,
    pub answer: Added,
}

// The number of an attribute in the table of bounds.
pub fn place(a: Attribute) -> usize
    ensures { result ≡ place_of a }
{
    a as usize
}

impl Record {
    // Adds the attribute with the number k, which a record has once.
    #[tactic(auto, unfolding(crate::specs::Add::add_single, crate::specs::Add::set_single, crate::specs::Add::outcome))]
    pub fn with_single(mut self, k: usize, value: &[u8]) -> Addition
        requires { k < single_count }
        ensures { told result ≡ add_single self k value.now }
    {
        if !keeps_rule(k, value) {
            return Addition {
                record: self,
                answer: Added::Refused,
            };
        }
        if self.singles.values[k].len != 0 {
            return Addition {
                record: self, // there already
                answer: Added::Refused,
            };
        }
        self.singles.values[k] = Value::of(value);
        Addition {
            record: self,
            answer: Added::Done,
        }
    }

    // Adds an attribute that a record has once.
    pub fn with(self, a: Attribute, value: &[u8]) -> Addition
        ensures { told result ≡ add_single self (place_of a) value.now }
    {
        self.with_single(place(a), value)
    }

    // Adds a unit behind those that are there: the most significant comes first.
    #[tactic(auto, unfolding(crate::specs::Add::add_unit, crate::specs::Canonical::is_unit, crate::specs::Add::push_unit, crate::specs::Add::outcome))]
    pub fn with_unit(mut self, name: &[u8]) -> Addition
        ensures { told result ≡ add_unit self name.now }
    {
        if !is_value(OU, name) {
            return Addition {
                record: self,
                answer: Added::Refused,
            };
        }
        let count = self.units.count;
        if MOST <= count {
            return Addition {
                record: self,
                answer: Added::Refused, // a fifth unit
            };
        }
        self.units.names[count] = OrgUnit::of(name);
        self.units.count = count + 1;
        Addition {
            record: self,
            answer: Added::Done,
        }
    }

    // Adds a domain defined attribute behind those that are there.
    #[tactic(auto, unfolding(crate::specs::Add::add_dd, crate::specs::Canonical::is_dd, crate::specs::Add::push_dd, crate::specs::Add::outcome, crate::specs::View::domain_defined_of))]
    pub fn with_dd(mut self, kind: &[u8], value: &[u8]) -> Addition
        ensures { told result ≡ add_dd self kind.now value.now }
    {
        let count = self.dds.count;
        if !is_value(DD_TYPE, kind) || !is_value(DD_VALUE, value) || MOST <= count {
            return Addition {
                record: self,
                answer: Added::Refused,
            };
        }
        self.dds.items[count] = DomainDefined {
            kind: DdType::of(kind),
            value: DdValue::of(value),
        };
        self.dds.count = count + 1;
        Addition {
            record: self,
            answer: Added::Done,
        }
    }
}
