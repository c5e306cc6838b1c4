//! Worked image texts, for tests of this crate and of those above it.

/// The image of one jump.
pub const ONE_JUMP: &str = "oat-image 1\n\
    code 6\n\
    D2800029\n\
    D4000021\n\
    14000001\n\
    D2800029\n\
    D4000041\n\
    D4000001\n\
    data 0\n\
    cells 0\n\
    functions 1\n\
    00010000 main 0 0\n\
    blocks 1\n\
    0001000C b\n\
    rows 3\n\
    begin 00010000 1\n\
    jump 00010008 0001000C\n\
    end 0001000C 1\n\
    end\n";

/// An image whose operation 2 calls a helper twice, calls a function that a word of data names, uses a
/// critical cell and branches.
pub const CALLS: &str = "oat-image 1\n\
    code 45\n\
    94000002\n\
    D4000001\n\
    D10043FF\n\
    F90003FE\n\
    D2800049\n\
    D4000021\n\
    9400001B\n\
    9400001A\n\
    D280010B\n\
    F2A8000B\n\
    F9400169\n\
    B5000049\n\
    D4200060\n\
    D4000081\n\
    D63F0120\n\
    D280000B\n\
    F2A8000B\n\
    F940016A\n\
    D2800009\n\
    D40000E1\n\
    EB0A001F\n\
    9A9FA7E9\n\
    D4000061\n\
    B5000049\n\
    14000003\n\
    D4000121\n\
    14000001\n\
    D2800049\n\
    D4000041\n\
    F94003FE\n\
    910043FF\n\
    D40000A1\n\
    D65F03C0\n\
    D10043FF\n\
    F90003FE\n\
    F94003FE\n\
    910043FF\n\
    D40000A1\n\
    D65F03C0\n\
    D28000E0\n\
    D40000A1\n\
    D65F03C0\n\
    D2800180\n\
    D40000A1\n\
    D65F03C0\n\
    data 2\n\
    0 000000000000000A\n\
    1 000000000001009C\n\
    cells 1\n\
    0\n\
    functions 5\n\
    00010000 main 0 0\n\
    00010008 work 0 0\n\
    00010084 helper 1 1\n\
    0001009C up 0 1\n\
    000100A8 down 0 1\n\
    blocks 2\n\
    00010064 yes\n\
    0001006C done\n\
    rows 14\n\
    call 00010000 00010008\n\
    begin 00010010 2\n\
    call 00010018 00010084\n\
    call 0001001C 00010084\n\
    check 0001002C\n\
    icall 00010034 0\n\
    use 0001003C 0\n\
    branch 00010058 00010064 0001006C\n\
    jump 00010068 0001006C\n\
    end 0001006C 2\n\
    ret 0001007C\n\
    ret 00010094\n\
    ret 000100A0\n\
    ret 000100AC\n\
    end\n";
