//! What each source means, and the code of each task.

pub mod draft;
pub mod fed_use;
pub mod feed;
pub mod feeds;
pub mod images;
pub mod link;
pub mod lookup;
pub mod producers;
pub mod reading;
pub mod resolve;
pub mod resource_draft;
pub mod retained;
pub mod source_fault;
pub mod task_draft;
