/// A statement. The statements of its blocks follow it, as many as it says.
#[derive(Clone, Copy, Debug, PartialEq, Eq)]
pub enum Statement {
    Skip,
    Load {
        register: u8,
        location: u8,
    },
    Store {
        location: u8,
        register: u8,
    },
    Constant {
        register: u8,
        value: u8,
    },
    Copy {
        register: u8,
        from: u8,
    },
    Sum {
        register: u8,
        left: u8,
        right: u8,
    },
    Equal {
        register: u8,
        left: u8,
        right: u8,
    },
    CompareAndSwap {
        register: u8,
        location: u8,
        compared: u8,
        new: u8,
    },
    Fence,
    Get {
        register: u8,
    },
    Print {
        register: u8,
    },
    If {
        register: u8,
        nonzero: u8,
        zero: u8,
    },
    Declare {
        register: u8,
        value: u8,
        inner: u8,
    },
}
