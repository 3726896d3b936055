//! What a thread's frames and the heap's objects are, as plain values (JVMS 2.5.3, 2.6). `specs/` has the definitions: the machine's
//! storage says what it holds by them, and the reference machine what its steps change.
#![tactic(auto)]
