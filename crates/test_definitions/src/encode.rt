//! Worked examples of the definitions of `tiff_encode`: calls of the writer, their errors, what
//! they leave, and lists of jobs.

pub mod appending;
pub mod calls;
pub mod causes;
pub mod chunks;
pub mod encoder;
pub mod file_bytes;
pub mod image_data;
pub mod image_data_wholes;
pub mod image_jobs;
pub mod job_lists;
pub mod jobs;
pub mod leaves;
pub mod model;
pub mod open;
pub mod packed;
pub mod stored;
pub mod tagging;
