// Rows in order, as a search is given them.
ghost use Rattle.table_order.specs.Place.{Ordered};
ghost use Rattle.table_order.specs.Props.{Ordered-prop};

use table::rows::Key;

// The first n rows in the order of their keys: the text that they stand in, and the numbers that they are kept as.
#[derive(Clone, Copy)]
pub struct Rows<'a> {
    pub text: &'a [u8],
    pub numbers: &'a [usize],
    pub n: usize,
    pub key: Key,
    pub ghost ordered: { Ordered key text.now numbers.now n } by { Ordered-prop key text.now numbers.now n },
}
