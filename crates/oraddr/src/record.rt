// The record by value, the empty one, and readers of its attributes and levels. A record is any input: what stands past a
// length or a count is not part of it.
// An attribute's number is bounded where it is used: it indexes the one table of bounds, and loops count over it.
ghost use Rattle.std.specs.Prelude.{◌≡◌, ◌<◌, get_or, length, []};
ghost use Rattle.oraddr.specs.Attributes.{levels, no_dd, single_of, unit_of};
ghost use Rattle.oraddr.specs.Bounds.{level_count, single_count};
ghost use Rattle.oraddr.specs.View.{dd_view, dds_view, empty_record, unit_view, units_view, value_of, value_view, view};

use crate::bounds::{DD_TYPE_ROOM, DD_VALUE_ROOM, MOST, OU_ROOM, OWN_LEVELS, SINGLES, VALUE_ROOM};
use crate::value::{DdType, DdValue, DomainDefined, OrgUnit, Value};

// The attributes that a record has once, by their numbers in the table of bounds.
#[derive(Clone, Copy)]
pub struct Singles {
    pub values: [Value; SINGLES],
}

// The units, most significant first. (By value and in fixed memory, so a count stands beside the places; so of the DDs.)
#[derive(Clone, Copy)]
pub struct Units {
    pub count: usize,
    pub names: [OrgUnit; MOST],
}

// The domain defined attributes, in order.
#[derive(Clone, Copy)]
pub struct Dds {
    pub count: usize,
    pub items: [DomainDefined; MOST],
}

#[derive(Clone, Copy)]
pub struct Record {
    pub singles: Singles,
    pub units: Units,
    pub dds: Dds,
}

// The value, the unit and the DD that is not there. (No constant of `Text` gives the empty text: a constant's value cannot
// name what a generic block defines.)
const NO_VALUE: Value = Value {
    len: 0,
    bytes: [0u8; VALUE_ROOM],
};

const NO_UNIT: OrgUnit = OrgUnit {
    len: 0,
    bytes: [0u8; OU_ROOM],
};

const NO_DD: DomainDefined = DomainDefined {
    kind: DdType {
        len: 0,
        bytes: [0u8; DD_TYPE_ROOM],
    },
    value: DdValue {
        len: 0,
        bytes: [0u8; DD_VALUE_ROOM],
    },
};

// The record with no attribute.
pub(crate) const EMPTY: Record = Record {
    singles: Singles {
        values: [NO_VALUE; SINGLES],
    },
    units: Units {
        count: 0,
        names: [NO_UNIT; MOST],
    },
    dds: Dds {
        count: 0,
        items: [NO_DD; MOST],
    },
};

impl Singles {
    // The value with the number k.
    pub fn value(self, k: usize) -> Value
        requires { k < single_count }
        ensures { result ≡ get_or self.values k (value_of []) }
    {
        self.values[k]
    }
}

impl Units {
    // How many units there are, whatever the count says.
    #[tactic(auto, unfolding(crate::specs::View::units_view))]
    pub fn size(self) -> usize
        ensures { result ≡ length (units_view self) }
    {
        self.count.min(MOST)
    }

    // Unit i, or the empty one where there are fewer.
    #[tactic(auto, unfolding(crate::specs::View::units_view))]
    pub fn name(self, i: usize) -> OrgUnit
        ensures { unit_view result ≡ get_or (units_view self) i [] }
    {
        if i < self.size() {
            self.names[i]
        } else {
            NO_UNIT
        }
    }
}

impl Dds {
    #[tactic(auto, unfolding(crate::specs::View::dds_view))]
    pub fn size(self) -> usize
        ensures { result ≡ length (dds_view self) }
    {
        self.count.min(MOST)
    }

    // DD i, or the empty one where there are fewer.
    #[tactic(auto, unfolding(crate::specs::View::dds_view, crate::specs::View::dd_view, crate::specs::Attributes::no_dd))]
    pub fn item(self, i: usize) -> DomainDefined
        ensures { dd_view result ≡ get_or (dds_view self) i no_dd }
    {
        if i < self.size() {
            self.items[i]
        } else {
            NO_DD
        }
    }
}

impl Record {
    #[tactic(auto, unfolding(crate::specs::View::domain_defined_of, crate::specs::View::text_of, chars::specs::Write::front))]
    pub fn empty() -> Record
        ensures { result ≡ empty_record }
    {
        EMPTY
    }

    // The value of the attribute with the number k, which a record has once.
    #[tactic(auto, unfolding(crate::specs::Attributes::single_of, crate::specs::View::view), using(crate::proofs::Laws::View::single_view))]
    pub fn single(self, k: usize) -> Value
        requires { k < single_count }
        ensures { value_view result ≡ single_of (view self) k }
    {
        self.singles.value(k)
    }

    #[tactic(auto, unfolding(crate::specs::Attributes::unit_of, crate::specs::View::view))]
    pub fn unit(self, i: usize) -> OrgUnit
        ensures { unit_view result ≡ unit_of (view self) i }
    {
        self.units.name(i)
    }

    // Level k: C, ADMD, PRMD, O, OU1 to OU4.
    pub fn level(self, k: usize) -> Value
        requires { k < level_count }
        ensures { value_view result ≡ get_or (levels (view self)) k [] }
    {
        if k < OWN_LEVELS {
            return self.single(k);
        }
        Value::of(self.unit(k - OWN_LEVELS).text())
    }
}
