//! Five sections by their numbers, and the one that a place is inside.
ghost use Rattle.std.specs.Prelude.{◌≡◌};
ghost use Rattle.std.specs.List.{find};
ghost use Rattle.image.specs.Layout.{inside};
ghost use Rattle.exclusion.specs.Parts.{holding, section_at};

use image::layout::Section;

/// Section d of five, numbered from 1, or zeros if d is not 1 to 5.
pub fn section_at(sections: &[Section; 5], d: usize) -> Section
    ensures defined { result ≡ section_at sections.now d }
{
    match d {
        1..=5 => sections[d - 1],
        _ => Section {
            start: 0,
            length: 0,
            abort: 0,
        },
    }
}

// stays: tried as one function with `first_inside`, and the proof didn't close
/// The first section that a place is inside, if it is inside one.
#[tactic(auto, using(crate::proofs::Holding::found_first))]
pub(crate) fn holding(sections: &[Section; 5], place: u64) -> Option<Section>
    ensures defined { result ≡ holding sections.now place }
{
    first_inside(sections, place)
}

/// The first of some sections that a place is inside.
fn first_inside(sections: &[Section], place: u64) -> Option<Section>
    ensures defined { result ≡ find (λ section. inside section place) sections.now }
{
    sections
        .iter()
        .copied()
        .find(|section| section.contains(place))
}
