//! Integer types and their conversions.

ghost use Rattle.std.specs.Prelude.{◌≡◌};
ghost use Rattle.c_types.specs.Integers.{bits, common, greater, holds, is_signed, of_both_signs, promoted, rank, same_integer, unsigned_of};

/// An integer type (C11, 6.2.5). The three types of a character differ; a plain `char` is signed.
#[derive(Clone, Copy, PartialEq, Eq)]
pub enum IntType {
    Char,
    SignedChar,
    UnsignedChar,
    Short,
    UnsignedShort,
    Int,
    UnsignedInt,
    Long,
    UnsignedLong,
    LongLong,
    UnsignedLongLong,
}

impl IntType {
    /// How many bits a number of the type has: 8, 16, 32 or 64.
    pub fn bits(self) -> u8
        ensures { result ≡ bits self }
    {
        match self {
            IntType::Char | IntType::SignedChar | IntType::UnsignedChar => 8,
            IntType::Short | IntType::UnsignedShort => 16,
            IntType::Int | IntType::UnsignedInt | IntType::Long | IntType::UnsignedLong => 32,
            IntType::LongLong | IntType::UnsignedLongLong => 64,
        }
    }

    /// Whether it has negative numbers.
    pub fn is_signed(self) -> bool
        ensures { result ≡ is_signed self }
    {
        !matches!(
            self,
            IntType::UnsignedChar
                | IntType::UnsignedShort
                | IntType::UnsignedInt
                | IntType::UnsignedLong
                | IntType::UnsignedLongLong
        )
    }

    /// The integer conversion rank (6.3.1.1), from 1 for the characters to 5 for `long long`.
    pub fn rank(self) -> u8
        ensures { result ≡ rank self }
    {
        match self {
            IntType::Char | IntType::SignedChar | IntType::UnsignedChar => 1,
            IntType::Short | IntType::UnsignedShort => 2,
            IntType::Int | IntType::UnsignedInt => 3,
            IntType::Long | IntType::UnsignedLong => 4,
            IntType::LongLong | IntType::UnsignedLongLong => 5,
        }
    }

    /// The unsigned type that corresponds to it (6.2.5); an unsigned type is its own.
    pub fn to_unsigned(self) -> IntType
        ensures { result ≡ unsigned_of self }
    {
        match self {
            IntType::Char | IntType::SignedChar => IntType::UnsignedChar,
            IntType::Short => IntType::UnsignedShort,
            IntType::Int => IntType::UnsignedInt,
            IntType::Long => IntType::UnsignedLong,
            IntType::LongLong => IntType::UnsignedLongLong,
            unsigned => unsigned,
        }
    }

    /// Whether it can represent all values of the other type.
    pub fn holds(self, other: IntType) -> bool
        ensures { result ≡ holds self other }
    {
        if other.is_signed() {
            self.is_signed() && other.bits() <= self.bits()
        } else if self.is_signed() {
            other.bits() < self.bits()
        } else {
            other.bits() <= self.bits()
        }
    }

    /// The type by the integer promotions (6.3.1.1).
    pub fn promoted(self) -> IntType
        ensures { result ≡ promoted self }
    {
        if self.rank() <= IntType::Int.rank() {
            if IntType::Int.holds(self) {
                IntType::Int
            } else {
                IntType::UnsignedInt
            }
        } else {
            self
        }
    }

    /// The common type of two operands by the usual arithmetic conversions (6.3.1.8).
    pub fn common(self, other: IntType) -> IntType
        ensures { result ≡ common self other }
    {
        let (left, right) = (self.promoted(), other.promoted());
        match (left.is_signed(), right.is_signed()) {
            (true, false) => of_both_signs(left, right),
            (false, true) => of_both_signs(right, left),
            _ => greater(left, right),
        }
    }
}

/// Whether two integer types are one type.
pub fn same_integer(t: IntType, u: IntType) -> bool
    ensures { result ≡ same_integer t u }
{
    t as u8 == u as u8
}

/// Of two types of one sign, the one of greater rank.
fn greater(left: IntType, right: IntType) -> IntType
    ensures { result ≡ greater left right }
{
    if left.rank() < right.rank() {
        right
    } else {
        left
    }
}

/// The common type of a signed type and an unsigned one.
fn of_both_signs(signed: IntType, unsigned: IntType) -> IntType
    ensures { result ≡ of_both_signs signed unsigned }
{
    if signed.rank() <= unsigned.rank() {
        unsigned
    } else if signed.holds(unsigned) {
        signed
    } else {
        signed.to_unsigned()
    }
}
