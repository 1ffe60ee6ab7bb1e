//! Generic URIs and IRIs for C and all that calls C. What crosses are numbers, byte slices and
//! `#[repr(C)]` structs; `c/include/fluent_uri.h` is the other side.
#![tactic(auto)]

mod about;
mod ascii;
mod ascii_hosts;
mod bases;
mod batch;
mod building;
mod call_kind;
mod calls;
mod codes;
mod coding;
mod columns;
mod component_mending;
mod components;
mod errors;
mod fnv;
mod hosts;
mod lines;
mod mending;
mod normal_forms;
mod numbered;
mod order;
mod origins;
mod outcome;
mod parsing;
mod parts;
mod queries;
mod relative;
mod rules;
mod single;
mod texts;
mod values;
