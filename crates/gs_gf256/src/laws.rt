// The laws of the field, each proved of the definitions.

ghost use Rattle.gs_gf256.specs.FieldLaws.{
  SumIsClosed,
  SumIsAssociative,
  SumIsCommutative,
  ZeroIsNeutral,
  SumWithSelfIsZero,
  ProductIsClosed,
  ProductIsAssociative,
  ProductIsCommutative,
  ProductDistributes,
  OneIsNeutral,
  InverseExists,
  InverseIsUnique,
  NoZeroDivisors,
};

/// Bytes under xor and the product are a field.
pub fn field_laws()
    ensures sum_closed { SumIsClosed }
    ensures sum_associative { SumIsAssociative }
    ensures sum_commutative { SumIsCommutative }
    ensures zero { ZeroIsNeutral }
    ensures negative { SumWithSelfIsZero }
    ensures closed { ProductIsClosed }
    ensures associative { ProductIsAssociative }
    ensures commutative { ProductIsCommutative }
    ensures distributive { ProductDistributes }
    ensures one { OneIsNeutral }
    ensures inverse_exists { InverseExists }
    ensures inverse_unique { InverseIsUnique }
    ensures no_zero_divisors { NoZeroDivisors }
{}
