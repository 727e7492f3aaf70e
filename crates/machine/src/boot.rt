//! Boot: a new machine from a job.
ghost use Rattle.std.specs.Prelude.{◌≡◌, ◌+◌, ◌-◌, ◌≤◌, ◌&&◌, ◌++◌, length, replicate, IfOk, if◌then◌else◌, MatchResult, nat_le, nat_lt};
ghost use Rattle.exclusion.specs.Meaning.{ToldAll};
ghost use Rattle.image.specs.Checks.{all_pass};
ghost use Rattle.machine.specs.Sound.{Sound};
ghost use Rattle.model.specs.Calls.{all_left, booted_core, same_section, section_checks};
ghost use Rattle.model.specs.State.{new_core, new_cpu, new_thread, tabulated};
ghost use Rattle.image.specs.Layout.{section_of};
ghost use Rattle.words.specs.Words.{kind_number, kinds};

use exclusion::meaning::Exclusion;
use faults::{Fault, Refusal};
use image::checks::{JobImage, TEXT_LENGTH};
use image::fields::Sizes;
use image::layout::Section;
use image::text::Text;
use model::state::{Core, Cpu, Image, NO_FRAME, Thread};
use std::array;
use words::Kind;

/// A new thread: registers of 0, an empty stack and an empty hand.
fn new_thread() -> Thread
    ensures { result ≡ new_thread }
{
    Thread {
        q: 0,
        a: 0,
        b: 0,
        w: 0,
        frames: [NO_FRAME; 8],
        depth: 0,
        hand: None,
    }
}

/// A new CPU, with the first node of its list, or 0: no thread, counters of 0, and an empty ring.
fn new_cpu(first: u64) -> Cpu
    ensures { result ≡ new_cpu first }
{
    Cpu {
        current: None,
        counters: [0; 8],
        list: first,
        head: 0,
        tail: 0,
        slots: [0; 16],
    }
}

/// The next word of a number where nodes 1 to `nodes` are on one list in ascending order: 0 for the last node, which has no
/// next, and for a number that is no node.
fn next_of(node: u64, nodes: u64) -> u64
    ensures { result ≡ (if nat_le 1 node && nat_lt node nodes then node + 1 else 0) }
{
    if (1..nodes).contains(&node) {
        node + 1
    } else {
        0
    }
}

/// The next words of nodes 1 to `nodes` on one list in ascending order.
fn linked(nodes: u64) -> [u64; 256]
    ensures { result ≡ tabulated 256 (λ node. (if nat_le 1 node && nat_lt node nodes then node + 1 else 0)) }
{
    array::from_fn(|node| next_of(node as u64, nodes))
}

/// The first of so many nodes, and 0 where there are none.
fn first_node(nodes: u64) -> u64
    ensures { result ≡ (if nat_lt 0 nodes then 1 else 0) }
{
    if nodes > 0 { 1 } else { 0 }
}

/// A new machine: nodes 1 to N on CPU 0's list in ascending order, and everything else empty.
fn new_core(sizes: Sizes, image: Image) -> Core
    ensures { result ≡ new_core sizes image }
{
    let mut cpus = [new_cpu(0); 8];
    cpus[0] = new_cpu(first_node(sizes.nodes));
    Core {
        sizes,
        image,
        cpus,
        threads: [new_thread(); 16],
        next: linked(sizes.nodes),
    }
}

/// The image of accepted sections and a text; the places behind the text's words are 0.
fn image_of(sections: [Section; 5], text: &[u32]) -> Image
    requires { length text.now ≤ 256 }
    ensures { result ≡ record { sections = sections; text = record { words = text.now ++ replicate (256 - length text.now) 0; count = length text.now } } }
{
    let mut words = [0; TEXT_LENGTH];
    words[..text.len()].copy_from_slice(text);
    let count = text.len();
    Image {
        sections,
        text: Text { words, count },
    }
}

/// Whether an exclusion's section of an operation is the table's.
fn has_section<E: Exclusion>(exclusion: &E, table: &[u8], kind: Kind) -> bool
    ensures { result ≡ same_section ((E.Exclusion.meaning exclusion.now).section (kind_number kind)) (section_of table.now kind) }
{
    exclusion.section(kind.number()) == Section::of(table, kind)
}

/// Compares an exclusion's sections of operations with the table's, in their order: the first that differs is the fault.
fn compare_kinds<E: Exclusion>(exclusion: &E, table: &[u8], these: &[Kind]) -> Result<(), Fault>
    ensures { result ≡ all_pass (section_checks (E.Exclusion.meaning exclusion.now).section table.now these.now) }
{
    for kind in these {
        if !has_section(exclusion, table, *kind) {
            return Err(Fault::at(Refusal::OtherSections, kind.number()));
        }
    }
    Ok(())
}

// stays: tried within `boot_parts`, and the proof didn't close: that all kinds are compared is known there only by a contract
/// Compares all sections of an exclusion with the table's.
fn compare_sections<E: Exclusion>(exclusion: &E, table: &[u8]) -> Result<(), Fault>
    ensures { result ≡ all_pass (section_checks (E.Exclusion.meaning exclusion.now).section table.now kinds) }
{
    compare_kinds(exclusion, table, Kind::all())
}

/// Tells an exclusion left for every CPU, 0 to 7.
fn leave_all<E: Exclusion>(exclusion: &mut E)
    ensures { ToldAll E.Exclusion.told exclusion.old all_left exclusion.new }
{
    for cpu in 0..8 {
        exclusion.left(cpu);
    }
}

/// Boots a machine: its image is checked, then the exclusion's sections are compared with the table's. A machine that is
/// booted is new, and the exclusion was told left for every CPU; where it is refused, the exclusion is told nothing.
pub fn boot_parts<E: Exclusion>(image: &JobImage, exclusion: &mut E) -> Result<Core, Fault>
    ensures booted { result ≡ booted_core image.now.sizes image.now.table.now image.now.text.now image.now.signature (E.Exclusion.meaning exclusion.old).section }
    ensures told_only_if_booted { MatchResult result (λ _. ToldAll E.Exclusion.told exclusion.old all_left exclusion.new) (λ _. exclusion.new ≡ exclusion.old) }
    ensures sound_if_booted { IfOk result (λ core. Sound core) }
{
    let sections = image.check()?;
    compare_sections(exclusion, image.table)?;
    leave_all(exclusion);
    Ok(new_core(image.sizes, image_of(sections, image.text)))
}
