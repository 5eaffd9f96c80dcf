//! The tests of `tree`, through documents.

mod operations;
mod reserving;

use super::{checks, playing};
use cursor::Tag;
use document::Document;
use ids::Refusal;
use std::alloc::Global;
use std::process::Abort;
use std::test::Fail;
