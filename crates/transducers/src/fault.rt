// Why two transducers make no stack.

// More than 4,096 states, or more than 1,048,576 slots.
#[derive(Clone, Copy, PartialEq, Eq, Debug)]
pub enum StackFault {
    States,
    Slots,
}
