// The calls on an image. A vector's first four arguments are the image: position, session, closed, the flag kept at closing.
use crate::decode::Vector;
use crate::kinds::{Move, Poll};
use crate::values::{UNTOUCHED, Values};
use image::{BlockReply, Image, ImageReply, PeekReply, PollReply};
use logbuffer::cast::to_i64;
use logbuffer::errors;
use model::{Block, Error, LogRecord, Peeked, Polled};

fn image_of(v: Vector<'_>) -> Image {
    Image {
        position: v.argument(0),
        session_id: v.int(1),
        is_closed: v.flag(2),
        is_eos: v.flag(3),
    }
}

// Three numbers of an answer, then the next image.
fn with_image(answer: [i64; 3], next: Image) -> Values {
    let [first, second, third] = answer;
    Values::of(&[
        first,
        second,
        third,
        next.position,
        i64::from(next.session_id),
        i64::from(next.is_closed),
        i64::from(next.is_eos),
    ])
}

fn refused(e: Error, next: Image) -> Values {
    let number = i64::from(errors::number(e));
    with_image([number, i64::from(errors::place(e)), 0], next)
}

fn polled(reply: PollReply) -> Values {
    match reply.answer {
        Ok(Polled { fragments, entries }) => {
            with_image([0, to_i64(fragments), to_i64(entries)], reply.next)
        }
        Err(e) => refused(e, reply.next),
    }
}

fn peeked(reply: PeekReply) -> Values {
    match reply.answer {
        Ok(Peeked { position, entries }) => Values::of(&[0, position, to_i64(entries)]),
        Err(e) => Values::refused(e),
    }
}

// The block's session and term id stand behind the image.
fn blocked(reply: BlockReply) -> Values {
    match reply.answer {
        Ok(
            Block {
                offset,
                length,
                session_id,
                term_id,
            },
        ) => {
            let values = with_image([0, to_i64(offset), to_i64(length)], reply.next);
            values.with(7, &[session_id, term_id])
        }
        Err(e) => refused(e, reply.next),
    }
}

fn moved(reply: ImageReply) -> Values {
    match reply.answer {
        Ok(()) => with_image([0, 0, 0], reply.next),
        Err(e) => refused(e, reply.next),
    }
}

pub fn run(kind: Move, v: Vector<'_>, rec: LogRecord, log: &[u8]) -> Values {
    let image = image_of(v);
    match kind {
        Move::BlockPoll => blocked(image.block_poll(rec, log, v.int(4))),
        Move::SetPosition => moved(image.set_position(rec, log, v.argument(4))),
        Move::IsEndOfStream => {
            Values::positioned(image.is_end_of_stream(rec, log).map(i64::from))
        }
        Move::Close => moved(image.close(rec, log)),
    }
}

// Argument 5 is the limit or a peek's start, 6 the bound. The actions are the payload.
fn poll_into(kind: Poll, v: Vector<'_>, rec: LogRecord, log: &[u8], entries: &mut [i32]) -> Values {
    let image = image_of(v);
    let limit = v.int(5);
    let start = v.argument(5);
    let bound = v.argument(6);
    let actions = v.payload();
    match kind {
        Poll::Plain => polled(image.poll(rec, log, entries, limit)),
        Poll::Bounded => polled(image.bounded_poll(rec, log, entries, bound, limit)),
        Poll::Controlled => polled(image.controlled_poll(rec, log, entries, actions, limit)),
        Poll::Peek => peeked(image.controlled_peek(rec, log, entries, actions, start, bound)),
    }
}

// Argument 4 says how many entries are lent, at most all.
pub fn poll(kind: Poll, v: Vector<'_>, rec: LogRecord, log: &[u8]) -> Values {
    let mut entries = [UNTOUCHED; 64];
    let n = v.size(4).min(64);
    let values = poll_into(kind, v, rec, log, &mut entries[..n]);
    values.with_entries(&entries)
}
