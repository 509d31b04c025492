//! A table of connections for C, in front of any server: who holds each, and what becomes of it. It is
//! a plain value in the caller's memory, beside the caller's array of seats. `include/tds_service.h`
//! declares the exports.

mod answers;
mod asking;
mod buffer;
mod cancel;
mod coming;
mod ending;
mod exports;
mod giving;
mod heard;
mod hearing;
mod keeping;
pub mod laws;
mod lending;
mod packet;
mod plain;
mod putting;
mod requests;
mod seat;
mod sending;
mod signs;
mod table;
