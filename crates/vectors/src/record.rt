// The record as thirteen numbers, in the order of the struct: three tails, term count, initial id, term length, mtu, session, stream,
// connected, limit, end of stream, closed. A vector names those that its call changed by their place.
use crate::decode::{self, Vector};
use crate::values;
use model::LogRecord;

#[derive(Clone, Copy, PartialEq, Eq)]
pub struct Fields {
    pub at: [i64; 13],
}

pub fn fields_of(rec: LogRecord) -> Fields {
    let [first, second, third] = rec.tails;
    Fields {
        at: [
            first,
            second,
            third,
            i64::from(rec.active_term_count),
            i64::from(rec.initial_term_id),
            i64::from(rec.term_length),
            i64::from(rec.mtu_length),
            i64::from(rec.session_id),
            i64::from(rec.stream_id),
            i64::from(rec.is_connected),
            rec.publication_limit,
            rec.end_of_stream_position,
            i64::from(rec.is_closed),
        ],
    }
}

// The vectors know no marks and no slowest reader, as the Rust does not: every partition counts as cleared, so that every trip may rotate.
pub fn record_of(f: Fields) -> LogRecord {
    LogRecord {
        tails: [f.at[0], f.at[1], f.at[2]],
        active_term_count: values::narrow(f.at[3]),
        initial_term_id: values::narrow(f.at[4]),
        term_length: values::narrow(f.at[5]),
        mtu_length: values::narrow(f.at[6]),
        session_id: values::narrow(f.at[7]),
        stream_id: values::narrow(f.at[8]),
        is_connected: values::narrow(f.at[9]),
        publication_limit: f.at[10],
        end_of_stream_position: f.at[11],
        is_closed: f.at[12] != 0,
        slowest_position: 0,
        is_cleared: [true, true, true],
        active_transport_count: 0,
        correlation_id: 0,
        page_size: 0,
    }
}

// `from` with the fields that the vector names.
pub fn changed(v: Vector<'_>, from: Fields) -> Fields {
    let mut at = from.at;
    let mut place = v.fields;
    for _ in 0..v.field_count {
        if let Some(field) = at.get_mut(support::byte(v.input, place)) {
            *field = decode::long(v.input, place.saturating_add(1));
        }
        place = place.saturating_add(9);
    }
    Fields { at }
}
