//! The form of a kind, and what a table of forms by kind says of places, ways and outputs.

ghost use Rattle.std.specs.Prelude.{◌≡◌, true, slice_index, slice_index_or};
ghost use Rattle.calculators.specs.Forms.{no_form, places_of, ways_of, output_of, lawful_forms};

pub use meaning::WAYS;
use meaning::masks::has_bit;
use meaning::read_or;

/// One kind: the number of its places and of its ways, and for each way the mask of its outputs, in which bit i stands
/// for place i. A way that the kind does not have gives nothing.
// The table is a constant by kind and way: a mask for each way that there can be, and the number of those that there are.
#[derive(Clone, Copy)]
pub struct Form {
    pub places: u8,
    pub ways: u8,
    pub outputs: [u8; WAYS],
}

impl Form {
    /// The mask of a way, 0 where there is no such way.
    fn mask(self, way: u8) -> u8
        ensures { result ≡ slice_index self.outputs way }
    {
        read_or(&self.outputs, usize::from(way), 0)
    }
}

const NO_FORM: Form = Form {
    places: 0,
    ways: 0,
    outputs: [0; WAYS],
};

/// The forms of a calculator's kinds, by kind. They pass the test of a lawful table.
#[derive(Clone, Copy)]
pub(crate) struct Forms<const N: usize> {
    pub(crate) by_kind: [Form; N],
    ghost lawful: { lawful_forms by_kind ≡ true },
}

impl<const N: usize> Forms<N> {
    /// The form of a kind, one without places, ways and outputs where there is no such kind.
    fn of(&self, kind: u8) -> Form
        ensures { result ≡ slice_index_or self.now.by_kind kind no_form }
    {
        read_or(&self.by_kind, usize::from(kind), NO_FORM)
    }

    /// The number of places of a kind, 0 where there is no such kind.
    pub(crate) fn place_count(&self, kind: u8) -> u8
        ensures { result ≡ places_of self.now.by_kind kind }
    {
        self.of(kind).places
    }

    /// The number of ways of a kind, 0 where there is no such kind.
    pub(crate) fn way_count(&self, kind: u8) -> u8
        ensures { result ≡ ways_of self.now.by_kind kind }
    {
        self.of(kind).ways
    }

    /// Whether a place is an output of a way of a kind; false where there is no such kind, way or place.
    pub(crate) fn is_output(&self, kind: u8, way: u8, place: u8) -> bool
        ensures { result ≡ output_of self.now.by_kind kind way place }
    {
        has_bit(u64::from(self.of(kind).mask(way)), place)
    }
}
