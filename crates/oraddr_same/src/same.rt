// Two records are the same where their attributes agree: letter case aside, but DD values byte for byte.
ghost use Rattle.std.specs.Prelude.{◌≡◌, Bool};
ghost use Rattle.chars.specs.Case.{agree, equal_text, same_text};
ghost use Rattle.oraddr.specs.Same.{same_dd, same_record};
ghost use Rattle.oraddr.specs.View.{dd_view, dds_view, singles_view, units_view};

use chars::case::{equal_text, same_text};
use oraddr::record::{Dds, Record, Singles, Units};
use oraddr::value::{DomainDefined, held};

// Whether two lists are as long, and the test passes at each place.
fn agree<T, F: Fn(&T, &T) -> bool>(a: &[T], b: &[T], test: F) -> bool
    requires { F.IsAlwaysCallable test }
    ensures { (e : T → T → Bool) → ((x y : _) (r : Bool) → F.post test x y r → r ≡ e x.now y.now) → result ≡ agree e a.now b.now }
{
    a.len() == b.len() && a.iter().zip(b).all(|(x, y)| test(x, y))
}

#[tactic(auto, unfolding(oraddr::specs::Same::same_dd, oraddr::specs::View::dd_view))]
fn same_dd(a: &DomainDefined, b: &DomainDefined) -> bool
    ensures { result ≡ same_dd (dd_view a.now) (dd_view b.now) }
{
    same_text(a.kind.text(), b.kind.text()) && equal_text(a.value.text(), b.value.text())
}

fn same_singles(a: &Singles, b: &Singles) -> bool
    ensures { result ≡ agree same_text (singles_view a.now) (singles_view b.now) }
{
    agree(&a.values, &b.values, |x, y| same_text(x.text(), y.text()))
}

fn same_units(a: &Units, b: &Units) -> bool
    ensures { result ≡ agree same_text (units_view a.now) (units_view b.now) }
{
    let names = held(&a.names, a.count);
    agree(
        names,
        held(&b.names, b.count),
        |x, y| same_text(x.text(), y.text()),
    )
}

fn same_dds(a: &Dds, b: &Dds) -> bool
    ensures { result ≡ agree same_dd (dds_view a.now) (dds_view b.now) }
{
    agree(held(&a.items, a.count), held(&b.items, b.count), same_dd)
}

// Whether the two are the same.
#[tactic(auto, unfolding(oraddr::specs::Same::same_record, oraddr::specs::Same::same_attributes, oraddr::specs::View::view))]
pub fn same_record(a: Record, b: Record) -> bool
    ensures { result ≡ same_record a b }
{
    same_singles(&a.singles, &b.singles)
        && same_units(&a.units, &b.units)
        && same_dds(&a.dds, &b.dds)
}
