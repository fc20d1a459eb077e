//! The faults of an object.

use mx_explain::{Entry, Topic};

/// Faults of an object.
pub(crate) static OBJECTS: [Entry; 6] = [
    (
        Topic::Object(60),
        "",
        "An object consists of tetras, and at its end 1 to 3 bytes are left over.",
        "98090101 00000000 98",
        "the file was cut, or is no object: make it again by asm",
    ),
    (
        Topic::Object(61),
        "",
        "An object begins with the lopcode pre, 98 09 01 and another byte.",
        "00000000",
        "the file is no object; a source is for run and not for sim",
    ),
    (
        Topic::Object(62),
        "",
        "A tetra that begins with 98 is a lopcode, and this one does not exist, or\n\
        has no place here: after pre come data, then post, stab and end.",
        "98090101 00000000 980d0000",
        "make it again by asm",
    ),
    (
        Topic::Object(63),
        "",
        "The bytes Y and Z of a lopcode, or what follows it, have to fit: the Z of\n\
        loc, for instance, is 1 or 2.",
        "98090101 00000000 98010003",
        "make it again by asm",
    ),
    (
        Topic::Object(64),
        "",
        "The object ends too early: it has no post, no stab or no end.",
        "98090101 00000000",
        "the file was cut, or is what asm left of a source that it refused: make it again",
    ),
    (
        Topic::Object(65),
        "",
        "An object may have 67,108,864 bytes.",
        "a file of 70 MB",
        "it is too large for this tool",
    ),
];

/// Faults of the symbols of an object.
pub(crate) static TRIES: [Entry; 6] = [
    (
        Topic::Object(70),
        "",
        "The object ends within its trie, which is the tree that holds the symbols.",
        "98090101 00000000 980a00ff 00000000 00000000 980b0000 203a2041 980c0001",
        "make it again by asm",
    ),
    (
        Topic::Object(71),
        "",
        "After the trie of symbols up to three zero bytes fill its last tetra. Here\n\
        there are more, or one that is not zero.",
        "98090101 00000000 980a00ff 00000000 00000000 980b0000 00000001 980c0001",
        "make it again by asm",
    ),
    (
        Topic::Object(72),
        "",
        "A node of the trie says that its character has two bytes, and these are\n\
        none.",
        "98090101 00000000 980a00ff 00000000 00000000 980b0000 80000000 980c0001",
        "make it again by asm",
    ),
    (
        Topic::Object(73),
        "",
        "The trie has a name twice.",
        "98090101 00000000 980a00ff 00000000 00000000 980b0000 113a0081 013a0081 980c0002",
        "make it again by asm",
    ),
    (
        Topic::Object(74),
        "",
        "A name in the trie has more than 1,024 bytes.",
        "a name of 1,025 letters",
        "shorten the name in its source, and make it again by asm",
    ),
    (
        Topic::Object(76),
        "",
        "The serial number of a symbol is below 2^32, and this one is not.",
        "98090101 00000000 980a00ff 00000000 00000000 980b0000 013a007f 7f7f7fff 980c0002",
        "make it again by asm",
    ),
];

/// Faults of an object that is loaded.
pub(crate) static LOADING: [Entry; 3] = [
    (
        Topic::Object(90),
        "",
        "The object loads tetras on more than 65,536 pages of 4,096 bytes, which are\n\
        all that the machine has.",
        "65,537 places far apart",
        "place them closer in the source, and make it again by asm",
    ),
    (
        Topic::Object(95),
        "",
        "A tetra would lie at #6000000000000000 or above. Those addresses are the\n\
        register stack's, and the machine's own.",
        "98090101 00000000 98016001 00000000 00000001",
        "place the data below in the source, and make it again by asm",
    ),
    (
        Topic::Object(96),
        "",
        "The lopcode line names a line of a file, and no lopcode file has named one;\n\
        or file chooses one without a name that was not named before.",
        "98090101 00000000 98070001",
        "make it again by asm",
    ),
];
