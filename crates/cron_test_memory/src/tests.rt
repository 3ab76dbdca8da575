//! Each call that takes memory, made once while memory may run out. It gives the right answer, or
//! says that it is out of memory and changes nothing. `tools/refuse_memory` refuses each growth in
//! turn.

mod agendas;
mod calls;
mod checks;
mod readers;
mod support;
