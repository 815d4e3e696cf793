//! Where the words stand that tell what is at fault.
ghost use Rattle.std.specs.Prelude.{◌≡◌, map, option_map};
ghost use Rattle.bsdl_entity.specs.GivenView.{given as given_view};
ghost use Rattle.bsdl_description.specs.FirstValues.{is_attribute as is_same_attribute};
ghost use Rattle.bsdl_sizes.specs.Spots as spec;

use bsdl_entity::{Attribute, Given, Outline};

/// Where a word stands.
#[derive(Debug, Clone, Copy, PartialEq, Eq)]
pub enum Spot {
    /// At this place of the text.
    Outside(usize),
    /// In the text within quotes whose first quote is at this place, at this offset.
    Inside(usize, usize),
}

pub(crate) fn first_spot(spots: &[Option<Spot>]) -> Option<Spot>
    ensures { result ≡ spec.first_spot spots.now }
{
    for spot in spots {
        if let Some(found) = *spot {
            return Some(found);
        }
    }
    None
}

pub(crate) fn unless_fits(fits: bool, spot: Option<Spot>) -> Option<Spot>
    ensures { result ≡ spec.unless_fits fits spot }
{
    if fits { None } else { spot }
}

pub(crate) fn outside(start: Option<usize>) -> Option<Spot>
    ensures { result ≡ option_map Spot.Outside start }
{
    match start {
        Some(start) => Some(Spot::Outside(start)),
        None => None,
    }
}

pub(crate) fn inside(quote: usize, offset: Option<usize>) -> Option<Spot>
    ensures { result ≡ option_map (Spot.Inside quote) offset }
{
    match offset {
        Some(offset) => Some(Spot::Inside(quote, offset)),
        None => None,
    }
}

/// The name of an attribute, where it is first given.
pub(crate) fn attribute_spot(outline: &Outline<'_>, attribute: Attribute) -> Option<Spot>
    ensures { result ≡ spec.attribute_spot (map given_view outline.now.given.items) attribute }
{
    given_spot(&outline.given, attribute)
}

fn given_spot(given: &[Given<'_>], attribute: Attribute) -> Option<Spot>
    ensures { result ≡ spec.attribute_spot (map given_view given.now) attribute }
{
    for giving in given {
        if is_attribute(attribute, giving.attribute) {
            return Some(Spot::Outside(giving.name.start));
        }
    }
    None
}

fn is_attribute(one: Attribute, other: Attribute) -> bool
    ensures { result ≡ is_same_attribute one other }
{
    one == other
}
