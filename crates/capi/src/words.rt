// What C keeps and lends by a pointer, as words: specs/Words.antt draws how a record, an image, an assembler and a replay lie. A call reads the words that
// it needs and writes those that it changes; every index is a constant, so that nothing has to stand in memory besides.
ghost use Rattle.std.specs.Prelude.{◌≡◌, ℕ, ◌<◌, set};
ghost use Rattle.std.specs.Int.{w64};
ghost use Rattle.std.proofs.Common.{SFits};
ghost use Rattle.model.specs.LogBufferDescriptor.{reading};
ghost use Rattle.logbuffer.specs.Assembler.{sessions_of};
ghost use Rattle.image.specs.Images.{state_of};
ghost use Rattle.capi.specs.Words.{at, low_of, high_of, pair_of, flag_of, bit_of, bit_number, count_out, record_in, tail_moved, marks_word, marks_out, slowest_out, record_out, limit_out, closed_out, record_filled, image_at, image_in, image_out, shut_bits, shut_out, image_filled, ids_from, held_from, ids_to, held_to, assembler_in, assembler_from, assembler_to, assembler_out, replay_in, claim_words, claim_in};

use image::Image;
use logbuffer::fragment_assembler::FragmentAssembler;
use logbuffer::{cast, log_buffer_descriptor};
use model::{Claim, LogRecord, Reading};
use replay::Replay;

// ---- parts of a word

fn low(w: i64) -> i32
    ensures { result ≡ low_of w }
{
    log_buffer_descriptor::term_id(cast::to_i64(cast::long(w) % 4294967296 * 4294967296))
}

fn high(w: i64) -> i32
    ensures { result ≡ high_of w }
{
    log_buffer_descriptor::term_id(w)
}

pub(crate) fn pair(low: i32, high: i32) -> i64
    ensures { result ≡ pair_of low high }
{
    cast::to_i64(cast::word(low) + cast::word(high) * 4294967296)
}

// A flag in the lowest byte: any byte but 0 is yes.
fn flag(bits: usize) -> bool
    ensures { result ≡ flag_of bits }
{
    bits % 256 != 0
}

// The lowest bit.
fn bit(bits: usize) -> bool
    ensures { result ≡ bit_of bits }
{
    bits % 2 != 0
}

fn bit_number(mark: bool) -> usize
    ensures { result ≡ bit_number mark }
{
    usize::from(mark)
}

// ---- the record

pub(crate) fn record_in(w: &[i64; 14]) -> LogRecord
    ensures { result ≡ record_in w.now }
{
    let marks = cast::long(w[11]);
    LogRecord {
        tails: [w[0], w[1], w[2]],
        active_term_count: low(w[3]),
        initial_term_id: high(w[3]),
        term_length: low(w[4]),
        mtu_length: high(w[4]),
        session_id: low(w[5]),
        stream_id: high(w[5]),
        is_connected: low(w[6]),
        publication_limit: w[7],
        end_of_stream_position: w[8],
        is_closed: flag(cast::long(w[9])),
        slowest_position: w[10],
        is_cleared: [bit(marks), bit(marks / 2), bit(marks / 4)],
        active_transport_count: low(w[12]),
        correlation_id: w[13],
        page_size: high(w[12]),
    }
}

// The numbers of a record that lies in words, with the one tail that is asked for: the active partition's.
pub(crate) fn reading_in(w: &[i64; 14]) -> Reading
    ensures { result ≡ reading (record_in w.now) }
{
    let rec = record_in(w);
    let k = cast::word(rec.active_term_count) % 3;
    log_buffer_descriptor::read_with(rec, w[k])
}

// The marks in their three bits, beside bits that are kept.
fn marks_word(bits: usize, next: LogRecord) -> i64
    ensures { result ≡ marks_word bits next }
{
    let marks = next.is_cleared;
    let first = bit_number(marks[0]);
    let second = bit_number(marks[1]);
    let third = bit_number(marks[2]);
    cast::to_i64(bits / 8 * 8 + (first + 2 * second + 4 * third))
}

// After a clearing.
pub(crate) fn marks_out(w: &mut [i64; 14], next: LogRecord)
    ensures { w.new ≡ marks_out w.old next }
{
    let bits = cast::long(w[11]);
    w[11] = marks_word(bits, next);
}

// After the slowest reader's rise.
pub(crate) fn slowest_out(w: &mut [i64; 14], next: LogRecord)
    ensures { w.new ≡ slowest_out w.old next }
{
    let position = next.slowest_position;
    w[10] = position;
}

// After an append or a rotation.
pub(crate) fn record_out(w: &mut [i64; 14], next: LogRecord)
    ensures { w.new ≡ record_out w.old next }
{
    let tails = next.tails;
    w[0] = tails[0];
    w[1] = tails[1];
    w[2] = tails[2];
    w[3] = pair(next.active_term_count, next.initial_term_id);
    marks_out(w, next);
}

// Nothing is done here. Taken by value, words are known to be numbers of 64 bits, so that what is read of them and written back is what was there.
fn numbers<const N: usize>(w: [i64; N])
    ensures { (i : ℕ) → SFits w64 (at w.entry i) }
{}

// After an append that moves one tail: its word alone. Count, marks and the other tails stay, which is to write back what is read there.
pub(crate) fn tail_out(w: &mut [i64; 14], k: usize, tail: i64)
    requires { k < 3 }
    ensures { w.new ≡ record_out w.old (tail_moved (record_in w.old) k tail) }
{
    numbers(*w);
    w[k] = tail;
}

// After a limit change.
pub(crate) fn limit_out(w: &mut [i64; 14], next: LogRecord)
    ensures { w.new ≡ limit_out w.old next }
{
    let limit = next.publication_limit;
    w[7] = limit;
}

// After closing: a record that was closed, or that is not, stays.
pub(crate) fn closed_out(w: &mut [i64; 14], next: LogRecord)
    ensures { w.new ≡ closed_out w.old next }
{
    let bits = cast::long(w[9]);
    if flag(bits) {
        return;
    }
    if next.is_closed {
        w[9] = cast::to_i64(bits + 1);
    }
}

// Every word, the gaps 0.
pub(crate) fn record_filled(w: &mut [i64; 14], next: LogRecord)
    ensures { w.new ≡ record_filled w.old next }
{
    record_out(w, next);
    w[4] = pair(next.term_length, next.mtu_length);
    w[5] = pair(next.session_id, next.stream_id);
    w[6] = pair(next.is_connected, 0);
    let limit = next.publication_limit;
    w[7] = limit;
    let end = next.end_of_stream_position;
    w[8] = end;
    w[9] = cast::to_i64(bit_number(next.is_closed));
    let position = next.slowest_position;
    w[10] = position;
    w[11] = marks_word(0, next);
    w[12] = pair(next.active_transport_count, next.page_size);
    let id = next.correlation_id;
    w[13] = id;
}

// ---- an image

fn image_at(position: i64, w: i64) -> Image
    ensures { result ≡ image_at position w }
{
    let bits = cast::long(w);
    Image {
        position: position,
        session_id: low(w),
        is_closed: flag(bits / 4294967296),
        is_eos: flag(bits / 1099511627776),
    }
}

pub(crate) fn image_in(w: &[i64; 2]) -> Image
    ensures { result ≡ image_in w.now }
{
    image_at(w[0], w[1])
}

// After a call that moves.
pub(crate) fn image_out(w: &mut [i64; 2], next: Image)
    ensures { w.new ≡ image_out w.old (state_of next) }
{
    let position = next.position;
    w[0] = position;
}

// The flags of an image that is closed now; its session and the gap stay.
fn shut(bits: usize, is_eos: bool) -> usize
    ensures { result ≡ shut_bits bits is_eos }
{
    let gap = bits / 281474976710656 * 281474976710656;
    if is_eos {
        return bits % 4294967296 + (4294967296 + (1099511627776 + gap));
    }
    bits % 4294967296 + (4294967296 + gap)
}

// After closing: an image that was closed, or that is not, stays.
pub(crate) fn shut_out(w: &mut [i64; 2], next: Image)
    ensures { w.new ≡ shut_out w.old (state_of next) }
{
    let bits = cast::long(w[1]);
    if flag(bits / 4294967296) {
        return;
    }
    if next.is_closed {
        w[1] = cast::to_i64(shut(bits, next.is_eos));
    }
}

// Both words of a new image, its flags and the gap 0.
pub(crate) fn image_filled(w: &mut [i64; 2], next: Image)
    ensures { w.new ≡ image_filled w.old (state_of next) }
{
    let position = next.position;
    w[0] = position;
    w[1] = pair(next.session_id, 0);
}

// ---- an assembler

fn ids_in(w: &[i64; 25]) -> [i32; 16]
    ensures { result ≡ ids_from w.now 1 }
{
    [
        low(w[1]),
        high(w[1]),
        low(w[2]),
        high(w[2]),
        low(w[3]),
        high(w[3]),
        low(w[4]),
        high(w[4]),
        low(w[5]),
        high(w[5]),
        low(w[6]),
        high(w[6]),
        low(w[7]),
        high(w[7]),
        low(w[8]),
        high(w[8]),
    ]
}

fn held_in(w: &[i64; 25]) -> [usize; 16]
    ensures { result ≡ held_from w.now 9 }
{
    [
        cast::long(w[9]),
        cast::long(w[10]),
        cast::long(w[11]),
        cast::long(w[12]),
        cast::long(w[13]),
        cast::long(w[14]),
        cast::long(w[15]),
        cast::long(w[16]),
        cast::long(w[17]),
        cast::long(w[18]),
        cast::long(w[19]),
        cast::long(w[20]),
        cast::long(w[21]),
        cast::long(w[22]),
        cast::long(w[23]),
        cast::long(w[24]),
    ]
}

pub(crate) fn assembler_in(w: &[i64; 25]) -> FragmentAssembler
    ensures { result ≡ assembler_in w.now }
{
    FragmentAssembler {
        count: cast::long(w[0]),
        ids: ids_in(w),
        held: held_in(w),
    }
}

fn ids_out(w: &mut [i64; 25], ids: &[i32; 16])
    ensures { w.new ≡ ids_to w.old 1 ids.now }
{
    w[1] = pair(ids[0], ids[1]);
    w[2] = pair(ids[2], ids[3]);
    w[3] = pair(ids[4], ids[5]);
    w[4] = pair(ids[6], ids[7]);
    w[5] = pair(ids[8], ids[9]);
    w[6] = pair(ids[10], ids[11]);
    w[7] = pair(ids[12], ids[13]);
    w[8] = pair(ids[14], ids[15]);
}

fn held_out(w: &mut [i64; 25], held: &[usize; 16])
    ensures { w.new ≡ held_to w.old 9 held.now }
{
    w[9] = cast::to_i64(held[0]);
    w[10] = cast::to_i64(held[1]);
    w[11] = cast::to_i64(held[2]);
    w[12] = cast::to_i64(held[3]);
    w[13] = cast::to_i64(held[4]);
    w[14] = cast::to_i64(held[5]);
    w[15] = cast::to_i64(held[6]);
    w[16] = cast::to_i64(held[7]);
    w[17] = cast::to_i64(held[8]);
    w[18] = cast::to_i64(held[9]);
    w[19] = cast::to_i64(held[10]);
    w[20] = cast::to_i64(held[11]);
    w[21] = cast::to_i64(held[12]);
    w[22] = cast::to_i64(held[13]);
    w[23] = cast::to_i64(held[14]);
    w[24] = cast::to_i64(held[15]);
}

pub(crate) fn assembler_out(w: &mut [i64; 25], next: FragmentAssembler)
    ensures { w.new ≡ assembler_out w.old (sessions_of next) }
{
    w[0] = cast::to_i64(next.count);
    let ids = next.ids;
    let held = next.held;
    ids_out(w, &ids);
    held_out(w, &held);
}

// ---- a replay

// Its image alone.
pub(crate) fn replay_image(w: &[i64; 27]) -> Image
    ensures { result ≡ image_in w.now }
{
    image_at(w[0], w[1])
}

pub(crate) fn replay_in(w: &[i64; 27]) -> Replay
    ensures { result ≡ replay_in w.now }
{
    let assembler: [i64; 25] = [
        w[2], w[3], w[4], w[5], w[6], w[7], w[8], w[9], w[10], w[11], w[12], w[13], w[14], w[15],
        w[16], w[17], w[18], w[19], w[20], w[21], w[22], w[23], w[24], w[25], w[26],
    ];
    Replay {
        image: image_at(w[0], w[1]),
        assembler: assembler_in(&assembler),
    }
}

// The words of its assembler.
fn sessions_out(w: &mut [i64; 27], next: FragmentAssembler)
    ensures { w.new ≡ assembler_to w.old 2 (sessions_of next) }
{
    let mut assembler: [i64; 25] = [0; 25];
    assembler_out(&mut assembler, next);
    w[2] = assembler[0];
    w[3] = assembler[1];
    w[4] = assembler[2];
    w[5] = assembler[3];
    w[6] = assembler[4];
    w[7] = assembler[5];
    w[8] = assembler[6];
    w[9] = assembler[7];
    w[10] = assembler[8];
    w[11] = assembler[9];
    w[12] = assembler[10];
    w[13] = assembler[11];
    w[14] = assembler[12];
    w[15] = assembler[13];
    w[16] = assembler[14];
    w[17] = assembler[15];
    w[18] = assembler[16];
    w[19] = assembler[17];
    w[20] = assembler[18];
    w[21] = assembler[19];
    w[22] = assembler[20];
    w[23] = assembler[21];
    w[24] = assembler[22];
    w[25] = assembler[23];
    w[26] = assembler[24];
}

// After a message that was handed out as it lies: the image's position alone. The words of the assembler stay, which is to write back what is
// read there.
pub(crate) fn position_out(w: &mut [i64; 27], position: usize)
    ensures { w.new ≡ assembler_to (set w.old 0 (count_out position)) 2 (sessions_of (assembler_from w.old 2)) }
{
    numbers(*w);
    w[0] = cast::to_i64(position);
}

// After any message.
pub(crate) fn replay_out(w: &mut [i64; 27], next: Replay)
    ensures { w.new ≡ assembler_to (image_out w.old (state_of next.image)) 2 (sessions_of next.assembler) }
{
    let image = next.image;
    let assembler = next.assembler;
    let position = image.position;
    w[0] = position;
    sessions_out(w, assembler);
}

// Every word of a new replay, its flags and the gap 0.
pub(crate) fn replay_filled(w: &mut [i64; 27], next: Replay)
    ensures { w.new ≡ assembler_to (image_filled w.old (state_of next.image)) 2 (sessions_of next.assembler) }
{
    let image = next.image;
    let assembler = next.assembler;
    let position = image.position;
    w[0] = position;
    w[1] = pair(image.session_id, 0);
    sessions_out(w, assembler);
}

// ---- a claim

pub(crate) fn claim_words(claim: Claim) -> [i64; 2]
    ensures { result ≡ claim_words claim }
{
    [
        pair(claim.partition, claim.offset),
        pair(claim.length, claim.term_id),
    ]
}

// And back.
pub(crate) fn claim_in(first: i64, second: i64) -> Claim
    ensures { result ≡ claim_in first second }
{
    Claim {
        partition: low(first),
        offset: high(first),
        length: low(second),
        term_id: high(second),
    }
}
