// An image: a reader's place in a log that is lent. A call takes the image by value, and hands the next one back beside its answer.
#![tactic(auto)]

ghost use Rattle.std.specs.Prelude.{◌≡◌, ◌≤◌, pos, get_or};
ghost use Rattle.model.specs.Image.{new_image, poll_of, bounded_poll_of, controlled_poll_of, set_position_of, end_of_stream_of, close_image_of, peek_of, peek_slots, block_poll_of};
ghost use Rattle.model.specs.Bytes.{long};
ghost use Rattle.model.specs.Replay.{poll_one};
ghost use Rattle.image.specs.Images.{state_of, image_of, shifted_in, poll_by, poll_reply_of, peek_reply_of, block_reply_of, image_reply_of};

use logbuffer::{argument, cast, log_buffer_descriptor};
use model::{Block, Error, LogRecord, Peeked, Polled, ReadVerdict, Reading};

mod block;
mod frames;
mod ladder;
mod limits;
mod peek;

// A position in the stream, the session, whether it is closed, and the end-of-stream flag kept at closing.
#[repr(C)]
#[derive(Clone, Copy)]
pub struct Image {
    pub position: i64,
    pub session_id: i32,
    pub is_closed: bool,
    pub is_eos: bool,
}

#[derive(Clone, Copy)]
pub struct PollReply {
    pub next: Image,
    pub answer: Result<Polled, Error>,
}

// A poll by the record's numbers, and the partition of the position that it read from.
#[derive(Clone, Copy)]
pub struct PolledOn {
    pub reply: PollReply,
    pub partition: usize,
}

// A poll of one fragment, and the offset of its body.
#[derive(Clone, Copy)]
pub struct One {
    pub polled: PollReply,
    pub entry: i32,
}

#[derive(Clone, Copy)]
pub struct PeekReply {
    pub next: Image,
    pub answer: Result<Peeked, Error>,
}

#[derive(Clone, Copy)]
pub struct BlockReply {
    pub next: Image,
    pub answer: Result<Block, Error>,
}

#[derive(Clone, Copy)]
pub struct ImageReply {
    pub next: Image,
    pub answer: Result<(), Error>,
}

impl Image {
    pub fn new(position: i64, session_id: i32) -> Image
        ensures { result ≡ image_of (new_image position session_id) }
    {
        Image {
            position: position,
            session_id: session_id,
            is_closed: false,
            is_eos: false,
        }
    }

    // Reads frames to the end of the term, at most `fragment_limit` fragments, and moves past what it read.
    pub fn poll(
        mut self,
        rec: LogRecord,
        log: &[u8],
        entries: &mut [i32],
        fragment_limit: i32,
    ) -> PollReply
        ensures value { result ≡ poll_reply_of (poll_of rec log.now (state_of self) entries.old fragment_limit) }
        ensures entries_after { entries.new ≡ (poll_of rec log.now (state_of self) entries.old fragment_limit).slots }
    {
        let polled = self.poll_on(
            log_buffer_descriptor::read_active(rec),
            log,
            entries,
            fragment_limit,
        );
        let reply = polled.reply;
        reply
    }

    // The same, for a caller who has read the record's numbers; and the partition in which it reads, which the poll has worked out anyway.
    pub fn poll_on(
        mut self,
        numbers: Reading,
        log: &[u8],
        entries: &mut [i32],
        fragment_limit: i32,
    ) -> PolledOn
        ensures reply_value { result.reply ≡ poll_reply_of (poll_by numbers log.now (state_of self) entries.old fragment_limit) }
        ensures partition_value { (result.partition ≡ shifted_in numbers.term (long self.position)) × (result.partition ≤ 2) }
        ensures entries_after { entries.new ≡ (poll_by numbers log.now (state_of self) entries.old fragment_limit).slots }
    {
        let limit = argument::natural(fragment_limit);
        let good = ladder::good_entries(entries.len(), limit);
        let k = limits::shifted_in(numbers.term, cast::long(self.position));
        let to = frames::poll_term(self, numbers, log, entries, good, limit, k);
        let position = to.position;
        let answer = to.answer;
        self.position = position;
        PolledOn {
            reply: PollReply {
                next: self,
                answer: answer,
            },
            partition: k,
        }
    }

    // A poll of one fragment, for a replay: on another path than `poll`, so that each has one caller and is built into it.
    pub fn poll_one(mut self, rec: LogRecord, log: &[u8]) -> One
        ensures { (result.polled ≡ poll_reply_of (poll_one rec log.now (state_of self))) × (result.entry ≡ get_or (poll_one rec log.now (state_of self)).slots 0 (pos 0)) }
    {
        let v = log_buffer_descriptor::read_active(rec);
        let mut entries: [i32; 2] = [0; 2];
        let to = frames::poll_frames(
            self,
            v,
            log,
            &mut entries,
            true,
            limits::NO_LIMIT,
            1,
            &log[0..0],
        );
        let position = to.position;
        let answer = to.answer;
        self.position = position;
        One {
            polled: PollReply {
                next: self,
                answer: answer,
            },
            entry: entries[0],
        }
    }

    // The same, and no frame that begins at or past a limit position; one that begins before it may end past it.
    pub fn bounded_poll(
        mut self,
        rec: LogRecord,
        log: &[u8],
        entries: &mut [i32],
        limit_position: i64,
        fragment_limit: i32,
    ) -> PollReply
        ensures value { result ≡ poll_reply_of (bounded_poll_of rec log.now (state_of self) entries.old limit_position fragment_limit) }
        ensures entries_after { entries.new ≡ (bounded_poll_of rec log.now (state_of self) entries.old limit_position fragment_limit).slots }
    {
        let v = log_buffer_descriptor::read_active(rec);
        let limit = argument::natural(fragment_limit);
        let bound = limits::natural_position(limit_position);
        let good = ladder::good_entries(entries.len(), limit);
        let to = frames::poll_frames(self, v, log, entries, good, bound, limit, &log[0..0]);
        let position = to.position;
        let answer = to.answer;
        self.position = position;
        PollReply {
            next: self,
            answer: answer,
        }
    }

    // A poll whose handler's answers are given: 1 abort, 2 break, 3 commit, 4 continue.
    pub fn controlled_poll(
        mut self,
        rec: LogRecord,
        log: &[u8],
        entries: &mut [i32],
        actions: &[u8],
        fragment_limit: i32,
    ) -> PollReply
        ensures value { result ≡ poll_reply_of (controlled_poll_of rec log.now (state_of self) entries.old actions.now fragment_limit) }
        ensures entries_after { entries.new ≡ (controlled_poll_of rec log.now (state_of self) entries.old actions.now fragment_limit).slots }
    {
        let v = log_buffer_descriptor::read_active(rec);
        let limit = argument::natural(fragment_limit);
        let good = ladder::good_control(entries.len(), limit, actions);
        let to = frames::poll_frames(
            self,
            v,
            log,
            entries,
            good,
            limits::NO_LIMIT,
            limit,
            actions,
        );
        let position = to.position;
        let answer = to.answer;
        self.position = position;
        PollReply {
            next: self,
            answer: answer,
        }
    }

    // Reads from another position as a controlled poll does, one fragment for each action, and leaves the image where it is. It answers the
    // position after the last whole message or padding.
    pub fn controlled_peek(
        mut self,
        rec: LogRecord,
        log: &[u8],
        entries: &mut [i32],
        actions: &[u8],
        start: i64,
        limit_position: i64,
    ) -> PeekReply
        ensures value { result ≡ peek_reply_of (state_of self) (peek_of rec log.now (state_of self) entries.old actions.now start limit_position) }
        ensures entries_after { entries.new ≡ peek_slots rec log.now (state_of self) entries.old actions.now start limit_position }
    {
        let answer = peek::peek_frames(self, rec, log, entries, actions, start, limit_position);
        PeekReply {
            next: self,
            answer: answer,
        }
    }

    // Moves past whole frames of at most `limit` bytes, and answers where they lie; a padding frame only by itself.
    pub fn block_poll(mut self, rec: LogRecord, log: &[u8], limit: i32) -> BlockReply
        ensures { result ≡ block_reply_of (block_poll_of rec log.now (state_of self) limit) }
    {
        let v = log_buffer_descriptor::read_active(rec);
        let most = argument::natural(limit);
        match ladder::readable(true, v, log.len(), self) {
            Err(e) => BlockReply {
                next: self,
                answer: Err(e),
            },
            Ok(ReadVerdict::Closed) => BlockReply {
                next: self,
                answer: Ok(Block {
                    offset: 0,
                    length: 0,
                    session_id: 0,
                    term_id: 0,
                }),
            },
            Ok(ReadVerdict::Read) => {
                let to = block::block_at(self, rec, v, log, most);
                let position = to.position;
                let answer = to.answer;
                self.position = position;
                BlockReply {
                    next: self,
                    answer: answer,
                }
            }
        }
    }

    // Moves to a frame's boundary between the position and the end of its term.
    pub fn set_position(mut self, rec: LogRecord, log: &[u8], new_position: i64) -> ImageReply
        ensures { result ≡ image_reply_of (set_position_of rec log.now (state_of self) new_position) }
    {
        let v = log_buffer_descriptor::read_active(rec);
        match ladder::reach(true, v, log.len(), self, cast::long(new_position)) {
            Err(e) => ImageReply {
                next: self,
                answer: Err(e),
            },
            Ok(ReadVerdict::Closed) => ImageReply {
                next: self,
                answer: Ok(()),
            },
            Ok(ReadVerdict::Read) => {
                self.position = new_position;
                ImageReply {
                    next: self,
                    answer: Ok(()),
                }
            }
        }
    }

    // Whether the position is at or past the end of the stream; of a closed image, whether it was at closing.
    pub fn is_end_of_stream(self, rec: LogRecord, log: &[u8]) -> Result<bool, Error>
        ensures { result ≡ end_of_stream_of rec log.now (state_of self) }
    {
        let v = log_buffer_descriptor::read_active(rec);
        match ladder::readable(true, v, log.len(), self)? {
            ReadVerdict::Closed => Ok(self.is_eos),
            ReadVerdict::Read => Ok(rec.end_of_stream_position <= self.position),
        }
    }

    // A closed image stays as it is.
    pub fn close(mut self, rec: LogRecord, log: &[u8]) -> ImageReply
        ensures { result ≡ image_reply_of (close_image_of rec log.now (state_of self)) }
    {
        let v = log_buffer_descriptor::read_active(rec);
        if !log_buffer_descriptor::is_sound(v, log.len()) {
            return ImageReply {
                next: self,
                answer: Err(Error::IllegalRecord),
            };
        }
        if self.is_closed {
            return ImageReply {
                next: self,
                answer: Ok(()),
            };
        }
        self.is_eos = rec.end_of_stream_position <= self.position;
        self.is_closed = true;
        ImageReply {
            next: self,
            answer: Ok(()),
        }
    }
}
