// Kinds of tag: what a memory asks of the bytes behind it.
#![tactic(auto)]

pub mod image;
pub mod image_fault;
pub mod kind;
pub mod practice_plug;
pub mod row;
pub mod sealed_tag;

pub use image_fault::ImageFault;
pub use kind::Kind;
pub use practice_plug::PracticePlug;
pub use sealed_tag::SealedTag;
