// A model: a domain of n elements, the element of each element name, and for each domain element the mask of the sets it is in.
// Elements past the names and masks past the domain are ignored. There is room for an element of each term, as in an arrangement,
// whose class numbers then are elements as they stand: the names come first among the terms. The arrays are fixed, for want of a heap.
ghost use Rattle.std.specs.Prelude.{◌≡◌, ◌^◌, ltb, get_or};
ghost use Rattle.question.specs.Masks.{bit};
ghost use Rattle.judge.specs.Models.{elements_inside, masks_inside, is_model};

use question::Question;
use statement::{ElementName, SetName};

#[derive(Clone, Copy)]
pub struct Model {
    pub size: usize,
    pub elements: [u8; Question::MAX_TERMS],
    pub masks: [u32; Question::MAX_TERMS],
}

// Is bit x of a mask set.
pub(crate) fn has(mask: u32, x: SetName) -> bool
    ensures { result ≡ bit mask x.0 }
{
    mask.checked_shr(u32::from(x.0)).unwrap_or(0) % 2 == 1
}

// Has a mask no bit at or above the number of sets.
fn below(mask: u32, sets: u8) -> bool
    ensures { result ≡ ltb mask (2 ^ sets) }
{
    mask.checked_shr(u32::from(sets)).unwrap_or(0) == 0
}

// The arrays are looked at where they lie: a model by value would be copied at each look.
impl Model {
    // The domain element of a name; names past the elements have element 0.
    pub(crate) fn element(&self, a: ElementName) -> usize
        ensures { result ≡ get_or self.now.elements a.0 0 }
    {
        usize::from(self.elements.get(usize::from(a.0)).copied().unwrap_or(0))
    }

    // The mask of a domain element; elements past the masks are in no set.
    pub(crate) fn mask(&self, d: usize) -> u32
        ensures { result ≡ get_or self.now.masks d 0 }
    {
        self.masks.get(d).copied().unwrap_or(0)
    }

    // One look at each element name.
    fn elements_inside(&self, names: u8) -> bool
        ensures { result ≡ elements_inside names self.now.size self.now.elements }
    {
        (0..names).all(|a| self.element(ElementName(a)) < self.size)
    }

    // One look at the mask of each domain element, and at none past them.
    fn masks_inside(&self, sets: u8) -> bool
        ensures { result ≡ masks_inside sets self.now.size self.now.masks }
    {
        (0..self.size).all(|d| below(self.mask(d), sets))
    }

    // Is this a model for so many names of each sort.
    pub(crate) fn is_model(&self, elements: u8, sets: u8) -> bool
        ensures { result ≡ is_model elements sets self.now }
    {
        self.size <= Question::MAX_TERMS
            && self.elements_inside(elements)
            && self.masks_inside(sets)
    }
}
