//! Runs of the vectors.
use calls::{Call, RawOperation};
use exclusion::abort::AbortRestart;
use exclusion::grace::Grace;
use exclusion::masking::Masking;
use exclusion::meaning::{Exclusion, Notice, Standing, Verdict};
use exclusion::rollback::AddressRollback;
use exclusion_laws::{ask, ask_both_classic, ask_masking};
use faults::{Fault, Refusal};
use image::checks::JobImage;
use image::fields::Sizes;
use image::layout::Section;
use numbers::reader::Reader;
use numbers::write_number;
use sample::{IMAGE, POP, POP_BREAKS, POP_HEADER, SIZES, TABLE, TEXT};
use schedule::body::{CallAt, read_call, read_calls, read_schedule};
use schedule::header::{read_header, read_job};
use std::alloc::Global;
use std::process::Abort;
use std::test::Fail;

// stays: apart from `call_at`; one for both would take the reading as a closure, which is no shorter
/// The number at an offset, and the offset behind it.
fn number_at(bytes: &[u8], at: usize) -> Result<(u64, usize), Fault> {
    let mut reader = Reader { bytes, at };
    let number = reader.number()?;
    Ok((number, reader.at))
}

/// The call at an offset, and the offset behind it.
fn call_at(bytes: &[u8], at: usize) -> Result<(Call, usize), Fault> {
    let mut reader = Reader { bytes, at };
    let call = read_call(&mut reader)?;
    Ok((call, reader.at))
}

/// The bytes are the spelling of the number: they are written, and they are read back.
fn spelled(rt: &impl Abort, n: u64, bytes: &[u8]) -> Result<(), Fail> {
    let mut out = [0xEE; 12];
    let count = write_number(&mut out, n)?;
    assert_eq!(rt; count, bytes.len());
    assert!(rt; out.starts_with(bytes));
    assert_eq!(rt; number_at(&out, 0), Ok((n, count)));
    assert_eq!(rt; number_at(bytes, 0), Ok((n, count)));
    Ok(())
}

#[test]
fn numbers_have_their_bytes(rt: HostRuntime) -> Result<(), Fail> {
    spelled(&rt, 0, &[0])?;
    spelled(&rt, 127, &[0x7F])?;
    spelled(&rt, 128, &[0x80, 0x01])?;
    spelled(&rt, 300, &[0xAC, 0x02])?;
    spelled(
        &rt,
        u64::MAX,
        &[0xFF, 0xFF, 0xFF, 0xFF, 0xFF, 0xFF, 0xFF, 0xFF, 0xFF, 0x01],
    )
}

/// The bytes do not begin with a number.
fn unspelled(rt: &impl Abort, bytes: &[u8], refusal: Refusal) {
    assert_eq!(rt; number_at(bytes, 0), Err(Fault::at(refusal, 0)));
}

#[test]
fn wrong_spellings_are_refused(rt: HostRuntime) {
    unspelled(&rt, &[0x80, 0x00], Refusal::WrongSpelling);
    unspelled(
        &rt,
        &[0xFF, 0xFF, 0xFF, 0xFF, 0xFF, 0xFF, 0xFF, 0xFF, 0xFF, 0x02],
        Refusal::WrongSpelling,
    );
    unspelled(
        &rt,
        &[0x80, 0x80, 0x80, 0x80, 0x80, 0x80, 0x80, 0x80, 0x80, 0x80],
        Refusal::WrongSpelling,
    );
    unspelled(
        &rt,
        &[0x80, 0x80, 0x80, 0x80, 0x80, 0x80, 0x80, 0x80, 0x80, 0x00],
        Refusal::WrongSpelling,
    );
    unspelled(
        &rt,
        &[0x80, 0x80, 0x80, 0x80, 0x80, 0x80, 0x80, 0x80, 0x80],
        Refusal::EndsInside,
    );
    unspelled(&rt, &[0x80], Refusal::EndsInside);
    unspelled(&rt, &[], Refusal::EndsInside);
    assert_eq!(rt;
        number_at(&[1, 2], 7),
        Err(Fault::at(Refusal::EndsInside, 7))
    );
}

#[test]
fn a_number_that_does_not_fit_leaves_the_buffer(rt: HostRuntime) {
    let mut none: [u8; 0] = [];
    assert_eq!(rt;
        write_number(&mut none, 0),
        Err(Fault::at(Refusal::NoRoom, 0))
    );
    let mut one = [0xEE];
    assert_eq!(rt;
        write_number(&mut one, 128),
        Err(Fault::at(Refusal::NoRoom, 0))
    );
    assert_eq!(rt; one, [0xEE]);
    assert_eq!(rt; write_number(&mut one, 127), Ok(1));
    assert_eq!(rt; one, [0x7F]);
}

#[test]
fn the_sample_image_is_accepted(rt: HostRuntime) -> Result<(), Fail> {
    let sections = IMAGE.check()?;
    let add = Section {
        start: 4100,
        length: 16,
        abort: 4120,
    };
    let take = Section {
        start: 4232,
        length: 24,
        abort: 4260,
    };
    assert_eq!(rt; sections[0], add);
    assert_eq!(rt; sections[4], take);
    Ok(())
}

/// The image is refused with the fault.
fn refused(rt: &impl Abort, image: JobImage, fault: Fault) {
    assert_eq!(rt; image.check(), Err(fault));
}

// stays: apart from `length_refused` and `text_refused`; one for all would need the array and its change as parameters
/// The sample image with one byte of the table changed.
fn table_refused(rt: &impl Abort, at: usize, byte: u8, refusal: Refusal, place: usize) {
    let mut table = TABLE;
    assert!(rt; at < table.len());
    table[at] = byte;
    let table = &table;
    refused(rt, JobImage { table, ..IMAGE }, Fault::at(refusal, place));
}

#[test]
fn each_check_of_a_descriptor_has_its_number_and_place(rt: HostRuntime) {
    table_refused(&rt, 0, 1, Refusal::Version, 0);
    table_refused(&rt, 131, 1, Refusal::Version, 128);
    table_refused(&rt, 36, 1, Refusal::Flags, 36);
    table_refused(&rt, 12, 1, Refusal::Unaddressable, 8);
    table_refused(&rt, 52, 1, Refusal::Unaddressable, 48);
    table_refused(&rt, 92, 1, Refusal::Unaddressable, 88);
    table_refused(&rt, 24, 8, Refusal::AbortInside, 24);
    table_refused(&rt, 24, 28, Refusal::Unsigned, 24);
    table_refused(&rt, 24, 2, Refusal::Unsigned, 24);
    table_refused(&rt, 16, 12, Refusal::WrongWords, 16);
    table_refused(&rt, 8, 8, Refusal::WrongWords, 16);
}

/// The sample image with another length of the section of add.
fn length_refused(rt: &impl Abort, length: u64, refusal: Refusal, place: usize) {
    let mut table = TABLE;
    table[16..24].copy_from_slice(&length.to_le_bytes());
    let table = &table;
    refused(rt, JobImage { table, ..IMAGE }, Fault::at(refusal, place));
}

#[test]
fn the_end_of_a_section_is_a_whole_number(rt: HostRuntime) {
    length_refused(&rt, 4294967296 - 4100, Refusal::Unaddressable, 16);
    length_refused(&rt, 4294967295 - 4100, Refusal::AbortInside, 24);
    length_refused(&rt, 0xFF000000FFFFFFFF, Refusal::Unaddressable, 16);
    length_refused(&rt, 20, Refusal::WrongWords, 16);
    length_refused(&rt, 21, Refusal::AbortInside, 24);
}

/// The sample image with one word of the text changed.
fn text_refused(rt: &impl Abort, at: usize, word: u32, refusal: Refusal, place: usize) {
    let mut text = TEXT;
    assert!(rt; at < text.len());
    text[at] = word;
    let text = &text;
    refused(rt, JobImage { text, ..IMAGE }, Fault::at(refusal, place));
}

#[test]
fn each_word_of_a_routine_counts(rt: HostRuntime) {
    text_refused(&rt, 0, 2, Refusal::WrongWords, 16);
    text_refused(&rt, 1, 3, Refusal::WrongWords, 16);
    text_refused(&rt, 4, 4, Refusal::WrongWords, 16);
    text_refused(&rt, 5, 5, Refusal::Unsigned, 24);
    text_refused(&rt, 6, 1, Refusal::WrongWords, 16);
    text_refused(&rt, 39, 20, Refusal::WrongWords, 144);
    text_refused(&rt, 41, 21, Refusal::WrongWords, 144);
}

/// The sample image with other sizes.
fn sizes_refused(rt: &impl Abort, sizes: Sizes, place: usize) {
    let fault = Fault::at(Refusal::OutOfRange, place);
    refused(rt, JobImage { sizes, ..IMAGE }, fault);
}

/// The sample image with another table or text, of a length that it may not have.
fn lengths_refused(rt: &impl Abort, table: &[u8], text: &[u32], place: usize) {
    let image = JobImage {
        table,
        text,
        ..IMAGE
    };
    refused(rt, image, Fault::at(Refusal::ImageLength, place));
}

#[test]
fn sizes_and_lengths_are_held_to_their_limits(rt: HostRuntime) {
    sizes_refused(&rt, Sizes { cpus: 0, ..SIZES }, 3);
    sizes_refused(&rt, Sizes { cpus: 9, ..SIZES }, 3);
    sizes_refused(
        &rt,
        Sizes {
            threads: 17,
            ..SIZES
        },
        4,
    );
    sizes_refused(
        &rt,
        Sizes {
            nodes: 256,
            ..SIZES
        },
        5,
    );
    sizes_refused(
        &rt,
        Sizes {
            packets: 16,
            ..SIZES
        },
        6,
    );
    sizes_refused(
        &rt,
        Sizes {
            counters: 9,
            ..SIZES
        },
        7,
    );
    sizes_refused(
        &rt,
        Sizes {
            cpus: 1 << 32,
            ..SIZES
        },
        3,
    );
    lengths_refused(&rt, &TABLE[0..159], &TEXT, 0);
    lengths_refused(&rt, &TABLE, &[], 1);
    lengths_refused(&rt, &TABLE, &[1; 257], 1);
}

#[test]
fn every_front_of_the_example_ends_where_it_should(rt: HostRuntime) -> Result<(), Fail> {
    for (length, place) in POP_BREAKS.iter().enumerate() {
        let read = read_schedule(rt.alloc(), &POP[..length])?;
        let fault = place.map(|place| Fault::at(Refusal::EndsInside, place));
        assert_eq!(rt; read.fault, fault);
    }
    Ok(())
}

#[test]
fn the_example_has_its_calls(rt: HostRuntime) -> Result<(), Fail> {
    let (job, at) = read_job(&POP)?;
    assert_eq!(rt; at, POP_HEADER);
    assert_eq!(rt; job.text.count, 42);
    let read = read_calls(rt.alloc(), Reader { bytes: &POP, at })?;
    assert_eq!(rt; read.fault, None);
    let pop = RawOperation {
        kind: 3,
        counter: 0,
        amount: 0,
    };
    assert!(rt; read.calls.len() == 3);
    let enlist = Call::Enlist {
        thread: 0,
        operation: pop,
    };
    assert_eq!(rt; read.calls[0], CallAt { at, call: enlist });
    assert_eq!(rt; read.calls[1].call, Call::Switch { cpu: 0, thread: 0 });
    let advance = Call::Advance {
        cpu: 0,
        instructions: 9,
    };
    assert_eq!(rt; read.calls[2].call, advance);
    Ok(())
}

/// The example with one byte of its header changed.
fn header_refused(rt: &impl Abort, at: usize, byte: u8, fault: Fault) {
    let mut bytes = POP;
    assert!(rt; at < bytes.len());
    bytes[at] = byte;
    assert_eq!(rt; read_job(&bytes).err(), Some(fault));
}

/// The fault of a schedule's number that lies outside its limits, which stands at the offset of its field's place.
fn beyond(place: usize) -> Fault {
    Fault::by_boot(place, Fault::at(Refusal::OutOfRange, place))
}

#[test]
fn a_refused_job_tells_boots_fault(rt: HostRuntime) {
    header_refused(&rt, 0, b'K', Fault::at(Refusal::UnknownLetter, 0));
    header_refused(&rt, 1, 3, beyond(1));
    header_refused(&rt, 4, 17, beyond(4));
    header_refused(&rt, 6, 16, beyond(6));
    header_refused(&rt, 3, 0, beyond(3));
    header_refused(&rt, 7, 9, beyond(7));
    header_refused(&rt, 12, 0x7F, beyond(8));
    let version = Fault::by_boot(POP_HEADER, Fault::at(Refusal::Version, 0));
    header_refused(&rt, 13, 1, version);
    let no_words = Fault::by_boot(173, Fault::at(Refusal::ImageLength, 1));
    header_refused(&rt, 173, 0, no_words);
    let long = [b'J'; 32769];
    let too_long = Fault::at(Refusal::EndsInside, 32768);
    assert_eq!(rt; read_header(&long).err(), Some(too_long));
}

#[test]
fn letters_of_calls(rt: HostRuntime) {
    assert_eq!(rt; call_at(b"r\x05", 0), Ok((Call::Run { cpu: 5 }, 2)));
    let operation = RawOperation {
        kind: 9,
        counter: 1,
        amount: 2,
    };
    assert_eq!(rt;
        call_at(b"g\x07\x09\x01\x02", 0),
        Ok((
            Call::Signal {
                thread: 7,
                operation,
            },
            5,
        ))
    );
    assert_eq!(rt; call_at(b"i\x80\x01", 0), Ok((Call::Idle { cpu: 128 }, 3)));
    assert_eq!(rt;
        call_at(b"..x", 2),
        Err(Fault::at(Refusal::UnknownLetter, 2))
    );
    assert_eq!(rt;
        call_at(b"R\x05", 0),
        Err(Fault::at(Refusal::UnknownLetter, 0))
    );
    assert_eq!(rt;
        call_at(b"s\x01\x80\x00", 0),
        Err(Fault::at(Refusal::WrongSpelling, 2))
    );
    assert_eq!(rt;
        call_at(b"a\x01", 0),
        Err(Fault::at(Refusal::EndsInside, 2))
    );
}

/// At a place on a CPU with descriptor 1 armed.
fn armed_on(cpu: usize, place: u64) -> Standing {
    Standing {
        cpu,
        armed: 1,
        place,
    }
}

/// What an exclusion says with descriptor 1 armed on CPU 0.
fn said<E: Exclusion>(rt: &impl Abort, exclusion: &E, place: u64, verdict: Verdict) {
    assert_eq!(rt; ask(exclusion, armed_on(0, place)), verdict);
}

#[test]
fn the_classic_ways_at_the_sections_edges(rt: HostRuntime) {
    let abort = AbortRestart::new(&TABLE);
    said(&rt, &abort, 4096, Verdict::Outside);
    said(&rt, &abort, 4100, Verdict::Back(4120));
    said(&rt, &abort, 4112, Verdict::Back(4120));
    said(&rt, &abort, 4116, Verdict::Outside);
    let rollback = AddressRollback::new(&TABLE);
    said(&rt, &rollback, 4096, Verdict::Outside);
    said(&rt, &rollback, 4100, Verdict::Back(4100));
    said(&rt, &rollback, 4112, Verdict::Back(4100));
    said(&rt, &rollback, 4116, Verdict::Outside);
    said(&rt, &rollback, 4252, Verdict::Back(4232));
    assert_eq!(rt; rollback.section(5).start, 4232);
    assert_eq!(rt; rollback.section(0).start, 0);
    assert_eq!(rt; rollback.section(6).abort, 0);
}

#[test]
fn masking_waits_for_three_instructions_of_add(rt: HostRuntime) {
    let mut masking = Masking::new(&TABLE);
    said(&rt, &masking, 4104, Verdict::Back(4100));
    masking.entered(0, 1);
    said(&rt, &masking, 4104, Verdict::Held);
    assert_eq!(rt; ask(&masking, armed_on(1, 4104)), Verdict::Back(4100));
    masking.stepped(0);
    masking.stepped(0);
    said(&rt, &masking, 4112, Verdict::Held);
    masking.stepped(0);
    said(&rt, &masking, 4112, Verdict::Back(4100));
    masking.stepped(0);
    said(&rt, &masking, 4112, Verdict::Back(4100));
    masking.entered(0, 3);
    said(&rt, &masking, 4112, Verdict::Held);
    masking.left(0);
    said(&rt, &masking, 4112, Verdict::Back(4100));
    masking.entered(8, 3);
    assert_eq!(rt; ask(&masking, armed_on(8, 4112)), Verdict::Back(4100));
}

#[test]
fn grace_one_over_abort_holds_for_one_instruction(rt: HostRuntime) {
    let mut grace = Grace::new(1, AbortRestart::new(&TABLE));
    grace.entered(0, 1);
    said(&rt, &grace, 4104, Verdict::Held);
    said(&rt, &grace, 4116, Verdict::Outside);
    grace.stepped(0);
    said(&rt, &grace, 4108, Verdict::Back(4120));
    let mut over_masking = Grace::new(1, Masking::new(&TABLE));
    over_masking.entered(7, 1);
    over_masking.stepped(7);
    over_masking.stepped(7);
    assert_eq!(rt; ask(&over_masking, armed_on(7, 4112)), Verdict::Held);
    over_masking.left(7);
    assert_eq!(rt; ask(&over_masking, armed_on(7, 4112)), Verdict::Back(4100));
}

#[test]
fn tables_of_any_bytes(rt: HostRuntime) {
    let none = AddressRollback::new(&[]);
    said(&rt, &none, 0, Verdict::Outside);
    said(&rt, &none, 4096, Verdict::Outside);
    let zeros = Masking::new(&[0; 160]);
    said(&rt, &zeros, 4096, Verdict::Outside);
    let ones = AbortRestart::new(&[0xFF; 200]);
    assert_eq!(rt; ones.section(5).length, u64::MAX);
    said(&rt, &ones, 4096, Verdict::Outside);
    said(&rt, &ones, u64::MAX, Verdict::Back(u64::MAX));
    let short = AddressRollback::new(&TABLE[0..17]);
    assert_eq!(rt; short.section(1).start, 4100);
    assert_eq!(rt; short.section(1).length, 16);
    assert_eq!(rt; short.section(1).abort, 0);
    said(&rt, &short, 4112, Verdict::Back(4100));
}

#[test]
fn generic_code_keeps_what_an_exclusion_answers(rt: HostRuntime) {
    let told = [
        Notice::Entered { cpu: 0, d: 1 },
        Notice::Stepped { cpu: 0 },
        Notice::Entered { cpu: 3, d: 2 },
    ];
    assert_eq!(rt;
        ask_masking(&TABLE, &told, armed_on(0, 4108)),
        Verdict::Held
    );
    assert_eq!(rt;
        ask_masking(&TABLE, &told, armed_on(1, 4108)),
        Verdict::Back(4100)
    );
    let both = ask_both_classic(&TABLE, &told, armed_on(0, 4108));
    assert_eq!(rt; both.0, Verdict::Back(4120));
    assert_eq!(rt; both.1, Verdict::Back(4100));
}
