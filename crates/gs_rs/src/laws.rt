// The laws of the codes, each proved of the definitions.
ghost use Rattle.gs_rs.specs.Laws.{
  LimitsMakeCodes,
  PointsAreDistinct,
  DenominatorsAreNotZero,
  PointFormIsRowForm,
  EnoughShardsDetermineBlock,
  EnoughShardsHaveBlock,
  DataAloneIsBlock,
  DataAloneHasCodewords,
};
ghost use Rattle.gs_rs.specs.ShardLaws.{HeldShardsHoldBlock, ShardsFormBlock, HeldShardsFixBlock};

/// Any D shards of a block determine it, and D shards of any content are those of a block.
/// Without parity shards any data is a block.
pub fn code_laws()
    ensures codes { LimitsMakeCodes }
    ensures points { PointsAreDistinct }
    ensures denominators { DenominatorsAreNotZero }
    ensures row_form { PointFormIsRowForm }
    ensures determined { EnoughShardsDetermineBlock }
    ensures existing { EnoughShardsHaveBlock }
    ensures without_parity { DataAloneIsBlock }
    ensures data_columns { DataAloneHasCodewords }
{}

/// Laws: data shards, with their parity shards behind them, are a block; where there is no parity, any number of
/// data shards is one. Any shards of a block, as many as it has data shards and no two of one number, fix it:
/// whatever the block, those of its data shards that are held, and what is restored in place of the others, are
/// that block's data shards.
pub fn held_shards_hold_block()
    ensures data { HeldShardsHoldBlock }
    ensures forms { ShardsFormBlock }
    ensures fixed { HeldShardsFixBlock }
{}
