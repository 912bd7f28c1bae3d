// The metadata section of a log: the 320 bytes of the Rust's `LogMetaDataDefn`, written and read. specs/Metadata.antt draws the layout,
// specs/Calls.antt says what each call answers and leaves. Its refusals are the crate's own, by the numbers 1, 2 and 25 of the documents.
#![tactic(auto)]

mod bytes;
mod section;

ghost use Rattle.std.specs.Prelude.{◌≡◌, length, Err};
ghost use Rattle.metadata.specs.Calls.{error_number, read_by, write_of, write_bytes, read_of};
ghost use Rattle.model.specs.Publication.{no_record};

use logbuffer::log_buffer_descriptor;
use model::LogRecord;
use section::METADATA_LENGTH;

// IllegalMetadata: another size than 320, a byte that is not 0 where no field is, or another header length than 32.
#[derive(Clone, Copy, Debug, PartialEq, Eq, thiserror::Error)]
pub enum MetadataError {
    #[error("an argument is out of its range")]
    IllegalArgument,
    #[error("the record or the log breaks its ranges")]
    IllegalRecord,
    #[error("no metadata section: another size than 320, a byte that is not 0 where no field is, or another header length than 32")]
    IllegalMetadata,
}

// The record that was read. Where reading was refused, it is one of zeros, which every call refuses.
#[derive(Clone, Copy)]
pub struct MetadataReply {
    pub next: LogRecord,
    pub answer: Result<(), MetadataError>,
}

// What a record holds beside the section's fields: whoever reads a section gives it.
#[repr(C)]
#[derive(Clone, Copy)]
pub struct Beside {
    pub session_id: i32,
    pub stream_id: i32,
    pub publication_limit: i64,
    pub is_closed: bool,
    pub slowest_position: i64,
    pub is_cleared: [bool; 3],
}

pub fn error_number(error: MetadataError) -> i32
    ensures { result ≡ error_number error }
{
    match error {
        MetadataError::IllegalArgument => 1,
        MetadataError::IllegalRecord => 2,
        MetadataError::IllegalMetadata => 25,
    }
}

// The section of a record, into an output of 320 bytes. Refuses 1, 25, 2, and leaves the output as it was then.
pub fn write_metadata(rec: LogRecord, output: &mut [u8]) -> Result<(), MetadataError>
    ensures value { result ≡ write_of rec (length output.old) }
    ensures output_after { output.new ≡ write_bytes rec output.old }
{
    if output.len() > 2147483647 {
        return Err(MetadataError::IllegalArgument);
    }
    let Some(section) = output.as_mut_array::<METADATA_LENGTH>() else {
        return Err(MetadataError::IllegalMetadata);
    };
    let v = log_buffer_descriptor::read_active(rec);
    if !log_buffer_descriptor::is_sound_record(v) {
        return Err(MetadataError::IllegalRecord);
    }
    section::put(rec, section);
    Ok(())
}

fn refused(error: MetadataError) -> MetadataReply
    ensures { result ≡ read_by (Err error) no_record }
{
    MetadataReply {
        next: log_buffer_descriptor::no_record(),
        answer: Err(error),
    }
}

// The record of a section, with what is given beside it. Refuses 1, 25, 2.
pub fn read_metadata(bytes: &[u8], beside: Beside) -> MetadataReply
    ensures { result ≡ read_of bytes.now beside }
{
    if bytes.len() > 2147483647 {
        return refused(MetadataError::IllegalArgument);
    }
    let Some(section) = bytes.as_array::<METADATA_LENGTH>() else {
        return refused(MetadataError::IllegalMetadata);
    };
    if !section::accepts(section) {
        return refused(MetadataError::IllegalMetadata);
    }
    let rec = section::record_from(section, beside);
    let v = log_buffer_descriptor::read_active(rec);
    if !log_buffer_descriptor::is_sound_record(v) {
        return refused(MetadataError::IllegalRecord);
    }
    MetadataReply {
        next: rec,
        answer: Ok(()),
    }
}
