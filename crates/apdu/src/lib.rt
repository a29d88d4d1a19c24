// APDUs, and how they are read and written.
#![tactic(auto)]

mod apdus;
mod decode;
mod encode;
mod shaped;

pub use apdus::{
    Apdu, Body, Invoke, NoApdu, Request, ReturnResult, WtanParamArg, WtanParamRes, WtatInfo,
    WtatParamArg, WtatParamRes,
};
pub use decode::read;
pub use encode::{LEAST_BUFFER, write};
