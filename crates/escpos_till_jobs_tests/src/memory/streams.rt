//! Streams of bytes as receipts: where memory is refused, that is said, and the same call gives its receipt afterwards.
//!
//! Each call stands in a function that answers no where memory is refused.

use escpos_command::LineWidth;
use escpos_io::{ByteIn, MemoryIn};
use escpos_job_parts::input::InputFault;
use escpos_receipt::JsonError;
use escpos_stream::{StreamError, stream_receipt, with_init};
use escpos_till::{Content, ReceiptContent};
use escpos_till_jobs::{NoStream, read_raw};
use std::alloc::Global;
use std::process::Abort;

const STREAM: &[u8] = b"Hi\n\x1dv0\x00\x01\x00\x01\x00\xff\x10\x04\x01";

fn gives_a_receipt(rt: &impl Abort, alloc: Global) -> bool {
    match stream_receipt(alloc, LineWidth::usual(), STREAM) {
        Ok(receipt) => {
            assert!(rt; receipt.commands().len() == 4);
            true
        }
        Err(why) => {
            assert!(rt; why == StreamError::Memory);
            false
        }
    }
}

#[test]
fn stream_receipt_refused(rt: HostRuntime) {
    if !gives_a_receipt(&rt, rt.alloc()) {
        assert!(&rt; gives_a_receipt(&rt, rt.alloc()));
    }
}

// The bytes of the stream. Where memory is refused, they are copied once more.
fn bytes(rt: &impl Abort, alloc: Global) -> Vec<u8> {
    match STREAM.to_vec(alloc) {
        Ok(bytes) => bytes,
        Err(_) => STREAM.to_vec(alloc).expect(rt, "bytes"),
    }
}

fn begins_with_init(rt: &impl Abort, alloc: Global) -> bool {
    match with_init(alloc, bytes(rt, alloc)) {
        Ok(begun) => {
            assert!(rt; begun.starts_with(b"\x1b@Hi\n"));
            true
        }
        Err(_) => false,
    }
}

#[test]
fn with_init_refused(rt: HostRuntime) {
    if !begins_with_init(&rt, rt.alloc()) {
        assert!(&rt; begins_with_init(&rt, rt.alloc()));
    }
}

fn content_of(rt: &impl Abort, alloc: Global) -> Option<Content> {
    match ReceiptContent::read_stream(alloc, LineWidth::usual(), bytes(rt, alloc)) {
        Ok(content) => Some(content.into_content()),
        Err(why) => {
            assert!(rt; why == StreamError::Memory);
            None
        }
    }
}

fn content_at_last(rt: &impl Abort, alloc: Global) -> Content {
    match content_of(rt, alloc) {
        Some(content) => content,
        None => content_of(rt, alloc).expect(rt, "a receipt"),
    }
}

fn is_read_again(rt: &impl Abort, alloc: Global) -> bool {
    match ReceiptContent::again(alloc, content_at_last(rt, alloc)) {
        Ok(again) => {
            assert!(rt; again.into_content().bytes().starts_with(b"\x1b@Hi\n"));
            true
        }
        Err(why) => {
            assert!(rt; why == JsonError::Memory);
            false
        }
    }
}

#[test]
fn read_stream_refused(rt: HostRuntime) {
    if !is_read_again(&rt, rt.alloc()) {
        assert!(&rt; is_read_again(&rt, rt.alloc()));
    }
}

fn is_read(rt: &impl Abort, alloc: Global) -> bool {
    let mut source = MemoryIn::new(STREAM, 7);
    match read_raw(alloc, LineWidth::usual(), &mut source) {
        Ok(content) => {
            assert!(rt; content.into_content().bytes().len() == STREAM.len() + 2);
            true
        }
        Err(fault) => {
            assert!(rt;
                matches!(
                    fault,
                    NoStream::Input(InputFault::Memory) | NoStream::Stream(StreamError::Memory)
                )
            );
            assert!(rt; !source.has_failed());
            false
        }
    }
}

#[test]
fn read_raw_refused(rt: HostRuntime) {
    if !is_read(&rt, rt.alloc()) {
        assert!(&rt; is_read(&rt, rt.alloc()));
    }
}
