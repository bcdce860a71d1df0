//! Tests of disks, and of shelves of bytes.

mod files;
mod stops;
