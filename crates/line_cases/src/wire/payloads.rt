//! Lines about the payloads of methods and of content headers.

use super::put_again;
use headers::{Header, UnwrittenHeader, read_header, read_size, write_header};
use line_parts::{LineAnswer, Unanswered};
use methods::{read_method, write_method};
use model::{Fields, Method, Properties, Text};

fn put_method_refusal(out: &mut LineAnswer, refusal: methods::BadMethod) {
    match refusal {
        methods::BadMethod::FrameError => out.put("501"),
        methods::BadMethod::SyntaxError => out.put("502"),
        methods::BadMethod::CommandInvalid => out.put("503"),
        methods::BadMethod::NotImplemented => out.put("540"),
        methods::BadMethod::Memory => out.fail(Unanswered::Memory),
    }
}

fn put_written_method(out: &mut LineAnswer, method: &Method, payload: &[u8]) {
    let mut written = Vec::new(out.alloc());
    match write_method(&mut written, method) {
        Ok(()) => put_again(out, payload, written.as_slice()),
        Err(_) => out.fail(Unanswered::Memory),
    }
}

/// Reads the payload as a method. Appends `read` if it is read and written again as the same bytes, or the reply code if it is refused.
pub fn put_method(out: &mut LineAnswer, payload: &[u8]) {
    match read_method(out.alloc(), payload) {
        Ok(method) => put_written_method(out, &method, payload),
        Err(refusal) => put_method_refusal(out, refusal),
    }
}

/// Appends whether the payload is read as queue.bind.
pub fn put_bind(out: &mut LineAnswer, payload: &[u8]) {
    let read = read_method(out.alloc(), payload);
    out.put_yes_or_no(matches!(&read, Ok(Method::QueueBind)));
}

/// Appends the reply code of a header that is refused.
pub fn put_header_refusal(out: &mut LineAnswer, refusal: headers::BadHeader) {
    match refusal {
        headers::BadHeader::FrameError => out.put("501"),
        headers::BadHeader::SyntaxError => out.put("502"),
        headers::BadHeader::Memory => out.fail(Unanswered::Memory),
    }
}

fn put_written_header(out: &mut LineAnswer, header: &Header, payload: &[u8]) {
    let mut written = Vec::new(out.alloc());
    match write_header(&mut written, header.size, &header.properties) {
        Ok(()) => put_again(out, payload, written.as_slice()),
        Err(_) => out.fail(Unanswered::Memory),
    }
}

/// Reads the payload as a header. Appends `read` if it is read and written again as the same bytes, or the reply code if it is refused.
pub fn put_header(out: &mut LineAnswer, payload: &[u8]) {
    match read_header(out.alloc(), payload) {
        Ok(header) => put_written_header(out, &header, payload),
        Err(refusal) => put_header_refusal(out, refusal),
    }
}

/// Appends the size of the body, or the reply code.
pub fn put_size(out: &mut LineAnswer, payload: &[u8]) {
    match read_size(payload) {
        Ok(size) => out.put_number(size),
        Err(refusal) => put_header_refusal(out, refusal),
    }
}

/// Appends the outcome of writing a header with `properties`: `written`, or the reply code if nothing was appended.
fn put_outcome(out: &mut LineAnswer, properties: &Properties) {
    let mut written = Vec::new(out.alloc());
    match write_header(&mut written, 5, properties) {
        Ok(()) => out.put("written"),
        Err(UnwrittenHeader::SyntaxError) if written.is_empty() => out.put("502"),
        Err(UnwrittenHeader::SyntaxError) => out.put("written in part"),
        Err(UnwrittenHeader::Memory) => out.fail(Unanswered::Memory),
    }
}

/// Appends the outcome of writing a header with `bytes` as its content type, its only property.
pub fn put_content_type(out: &mut LineAnswer, bytes: &[u8]) {
    let mut fields = Fields::none();
    let text = Text::from_slice(out.alloc(), bytes);
    fields.content_type = out.value_of(text, Unanswered::Memory);
    match Properties::new(out.alloc(), fields) {
        Ok(properties) => put_outcome(out, &properties),
        Err(_) => out.fail(Unanswered::Memory),
    }
}
