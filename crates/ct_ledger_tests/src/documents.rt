//! The pieces with which calls are made.

use crate::call::Call;

/// An id, and the document of the piece that is stated under it.
#[derive(Clone, Copy)]
pub struct Stated<'a> {
    pub id: &'a str,
    pub document: &'a str,
}

const HEXA: Stated<'static> = Stated {
    id: "hexa",
    document: "kind='words'\nn=10\nd=6\nwords=['1111111111','1111000000','1000111000']",
};

/// The code of Nordstrom and Robinson.
pub const NR: Stated<'static> = Stated {
    id: "nr",
    document: "kind='cosets'\nn=16\nd=6\nbasis=['1111111111111111','0000000011111111','0000111100001111','0011001100110011','0101010101010101']\nrepresentatives=['0000000000000000','0001000100011110','0000010100111001','0000001101101010','0000011001011100','0001001001000111','0001010001110010','0001011100100100']",
};

const PARTITION: Stated<'static> = Stated {
    id: "p4",
    document: "kind='partition'\nn=4\nd=4\nd1=2\nclasses=[['0000','1111'],['0011','1100'],['0101','1010'],['0110','1001']]",
};

/// Pieces that stand from the beginning.
pub const STANDING: [Stated<'static>; 4] = [
    HEXA,
    Stated {
        id: "hamming",
        document: "kind='cosets'\nn=6\nd=3\nbasis=['100011','010101','001110']\nrepresentatives=['000000']",
    },
    PARTITION,
    Stated {
        id: "k16",
        document: "kind='dual'\nn=16\nd=6\neven=true\nc=[60,60,18,12,3]",
    },
];

/// A piece of each kind, each of which betters bounds or may be a part: the Fano plane, the code of Nordstrom and Robinson, a partition, a code
/// beside itself, a product, a dual without weight, one with a weight, one with a number of words and one with a weight that allows something, and words with as many cites as there may be.
pub const TRIED: [Stated<'static>; 10] = [
    Stated {
        id: "fano",
        document: "kind='words'\nn=7\nd=4\nw=3\nwords=['1101000','0110100','0011010','0001101','1000110','0100011','1010001']",
    },
    NR,
    Stated {
        id: "q4",
        document: "kind='partition'\nn=4\nd=4\nw=2\nd1=2\nclasses=[['0011','1100'],['0101','1010'],['0110','1001']]",
    },
    Stated {
        id: "beside",
        document: "kind='build'\nop='juxtapose'\nn=12\nd=6\npart='hamming'\nother='hamming'",
    },
    Stated {
        id: "e8",
        document: "kind='product'\nn=8\nd=4\npairs=[['p4','p4']]",
    },
    Stated {
        id: "d13",
        document: "kind='dual'\nn=13\nd=6\neven=true\nc=[5,1,1]\ny=[[10,16],[12,48]]",
    },
    Stated {
        id: "j8",
        document: "kind='jdual'\nn=8\nd=4\nw=4\nc=[48,21,4]",
    },
    Stated {
        id: "o9",
        document: "kind='odd'\nn=9\nd=4\neven=true\nm=21\nc=[3,1,1]\ny=[[8,16]]",
    },
    Stated {
        id: "j17",
        document: "kind='jlocal'\nn=17\nd=8\nw=7\nc=[1710,216,17]\ny=[[7,6120]]",
    },
    Stated {
        id: "cited",
        document: "kind='words'\nformat=2\nn=6\nd=4\nwords=['000000','111100','110011','001111']\ncites=['page 1','page 2','page 3','page 4','page 5','page 6','page 7','page 8','page 9','page 10','page 11','page 12','page 13','page 14','page 15','page 16']",
    },
];

/// Codes made of that of Nordstrom and Robinson: it without a place, and this without another one.
pub const OVER_NR: [Stated<'static>; 2] = [
    Stated {
        id: "nr15",
        document: "kind='build'\nop='puncture'\nn=15\nd=5\npart='nr'\nplaces=[0]",
    },
    Stated {
        id: "nr14",
        document: "kind='build'\nop='puncture'\nn=14\nd=4\npart='nr15'\nplaces=[0]",
    },
];

/// Calls that are refused: the id stands, words are too near each other, no piece has the id, another piece names it, and again no piece has the id.
pub const REFUSED: [(Call, Stated<'static>); 5] = [
    (Call::Submit, HEXA),
    (
        Call::Submit,
        Stated {
            id: "near",
            document: "kind='words'\nn=10\nd=6\nwords=['1111111111','1111111100']",
        },
    ),
    (
        Call::Withdraw,
        Stated {
            id: "none",
            document: "",
        },
    ),
    (Call::Withdraw, PARTITION),
    (
        Call::WithdrawAll,
        Stated {
            id: "none",
            document: "",
        },
    ),
];
