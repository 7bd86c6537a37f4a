// The laws of images, each a promise of a public function: who calls it has the law for any proof.
ghost use Rattle.images.specs.Laws.{CodesReadBack, ReadsBack, ShowsBack, ImagesTell, WidthStands, ColumnsHold, ColumnsStay, Printables};
ghost use Rattle.images.specs.Worked.{Worked};

// An edit code is the one that its character stands for. An amount written unedited reads back as itself, an image
// that tells the sign shows its amount, and so no two amounts share one.
pub fn images_read_back()
    ensures codes { CodesReadBack }
    ensures unedited { ReadsBack }
    ensures shown { ShowsBack }
    ensures apart { ImagesTell }
{}

// An image is as wide as its picture and code say, whatever the value.
pub fn widths_stand()
    ensures { WidthStands }
{}

// Columns hold what was laid into them, columns apart stay, and all are characters.
pub fn columns_stand()
    ensures hold { ColumnsHold }
    ensures stay { ColumnsStay }
    ensures characters { Printables }
{}

// The worked cases of reading, arithmetic and images.
pub fn worked_cases_stand()
    ensures { Worked }
{}
