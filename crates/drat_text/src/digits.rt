// The digits of a number, written from a place on.
ghost use Rattle.std.specs.Prelude.{◌≡◌, ◌≤◌, ◌<◌, ◌+◌, ◌++◌, ℕ, length, take};
ghost use Rattle.std.specs.Fmt.{decimal};
ghost use Rattle.drat_text.specs.Digits.{digit_at, window, three};

/// How many bytes the table of digits has.
const SIZE: usize = 3000;

/// The three digits of each number below 1000.
static DIGITS: [u8; SIZE] = *b"\
    000001002003004005006007008009010011012013014015016017018019020021022023024025026027028029030031032033034035036037038039\
    040041042043044045046047048049050051052053054055056057058059060061062063064065066067068069070071072073074075076077078079\
    080081082083084085086087088089090091092093094095096097098099100101102103104105106107108109110111112113114115116117118119\
    120121122123124125126127128129130131132133134135136137138139140141142143144145146147148149150151152153154155156157158159\
    160161162163164165166167168169170171172173174175176177178179180181182183184185186187188189190191192193194195196197198199\
    200201202203204205206207208209210211212213214215216217218219220221222223224225226227228229230231232233234235236237238239\
    240241242243244245246247248249250251252253254255256257258259260261262263264265266267268269270271272273274275276277278279\
    280281282283284285286287288289290291292293294295296297298299300301302303304305306307308309310311312313314315316317318319\
    320321322323324325326327328329330331332333334335336337338339340341342343344345346347348349350351352353354355356357358359\
    360361362363364365366367368369370371372373374375376377378379380381382383384385386387388389390391392393394395396397398399\
    400401402403404405406407408409410411412413414415416417418419420421422423424425426427428429430431432433434435436437438439\
    440441442443444445446447448449450451452453454455456457458459460461462463464465466467468469470471472473474475476477478479\
    480481482483484485486487488489490491492493494495496497498499500501502503504505506507508509510511512513514515516517518519\
    520521522523524525526527528529530531532533534535536537538539540541542543544545546547548549550551552553554555556557558559\
    560561562563564565566567568569570571572573574575576577578579580581582583584585586587588589590591592593594595596597598599\
    600601602603604605606607608609610611612613614615616617618619620621622623624625626627628629630631632633634635636637638639\
    640641642643644645646647648649650651652653654655656657658659660661662663664665666667668669670671672673674675676677678679\
    680681682683684685686687688689690691692693694695696697698699700701702703704705706707708709710711712713714715716717718719\
    720721722723724725726727728729730731732733734735736737738739740741742743744745746747748749750751752753754755756757758759\
    760761762763764765766767768769770771772773774775776777778779780781782783784785786787788789790791792793794795796797798799\
    800801802803804805806807808809810811812813814815816817818819820821822823824825826827828829830831832833834835836837838839\
    840841842843844845846847848849850851852853854855856857858859860861862863864865866867868869870871872873874875876877878879\
    880881882883884885886887888889890891892893894895896897898899900901902903904905906907908909910911912913914915916917918919\
    920921922923924925926927928929930931932933934935936937938939940941942943944945946947948949950951952953954955956957958959\
    960961962963964965966967968969970971972973974975976977978979980981982983984985986987988989990991992993994995996997998999";

/// The byte at a place of the table.
#[inline(always)]
fn digit(place: usize) -> u8
    requires { place < 3000 }
    ensures { result ≡ 48 + digit_at place }
{
    DIGITS[place]
}

/// Writes the three bytes of the table from a place on.
#[inline(always)]
fn write_window(bytes: &mut [u8], at: usize, place: usize)
    requires place { place + 3 ≤ 3000 }
    requires room { at + 3 ≤ length bytes.old }
    ensures { (k : ℕ) → k ≤ 3 → take (at + k) bytes.new ≡ take at bytes.old ++ take k (window place) }
{
    let (first, second, third) = (digit(place), digit(place + 1), digit(place + 2));
    bytes[at] = first;
    bytes[at + 1] = second;
    bytes[at + 2] = third;
}

/// Writes three digits.
#[inline(always)]
fn write_three(bytes: &mut [u8], at: usize, number: u32) -> usize
    requires few { number < 1000 }
    requires room { at + 3 ≤ length bytes.old }
    ensures written { take result bytes.new ≡ take at bytes.old ++ three number }
    ensures end { result ≡ at + 3 }
{
    write_window(bytes, at, number as usize * 3);
    at + 3
}

/// How many zeros stand before the number's digits if it is written with three.
#[inline(always)]
fn zeros_before(number: u32) -> usize
    ensures one { number < 10 → result ≡ 2 }
    ensures two { 10 ≤ number → number < 100 → result ≡ 1 }
    ensures three { 100 ≤ number → result ≡ 0 }
{
    if number < 10 {
        2
    } else if number < 100 {
        1
    } else {
        0
    }
}

/// Writes the digits of a number that has one to three. The bytes after them are written too, so that no step depends on how
/// many there are.
#[inline(always)]
fn write_first(bytes: &mut [u8], at: usize, number: u32) -> usize
    requires few { number < 1000 }
    requires room { at + 3 ≤ length bytes.old }
    ensures written { take result bytes.new ≡ take at bytes.old ++ decimal number }
    ensures end { result ≤ at + 3 }
    ensures short { number < 10 → result ≡ at + 1 }
{
    let zeros = zeros_before(number);
    write_window(bytes, at, number as usize * 3 + zeros);
    at + (3 - zeros)
}

/// Writes the digits of a number that has one to six.
#[inline(always)]
fn write_six(bytes: &mut [u8], at: usize, number: u32) -> usize
    requires few { number < 1000000 }
    requires room { at + 6 ≤ length bytes.old }
    ensures written { take result bytes.new ≡ take at bytes.old ++ decimal number }
    ensures end { result ≤ at + 6 }
    ensures short { number < 10000 → result ≤ at + 4 }
{
    if number < 1000 {
        return write_first(bytes, at, number);
    }
    let middle = write_first(bytes, at, number / 1000);
    write_three(bytes, middle, number % 1000)
}

/// Writes the number's digits from a place on, and answers where they end. What stands before is as it was.
#[inline(always)]
pub(crate) fn write_number(bytes: &mut [u8], at: usize, number: u32) -> usize
    requires { at + 10 ≤ length bytes.old }
    ensures written { take result bytes.new ≡ take at bytes.old ++ decimal number }
    ensures end { result ≤ at + 10 }
{
    if number < 1_000_000 {
        return write_six(bytes, at, number);
    }
    let high = number / 1000;
    let first = write_six(bytes, at, high / 1000);
    let middle = write_three(bytes, first, high % 1000);
    write_three(bytes, middle, number % 1000)
}

/// Writes the digits of a number below 10^15 from a place on.
fn write_middle(bytes: &mut [u8], at: usize, number: u64) -> usize
    requires few { number < 1000000000000000 }
    requires room { at + 16 ≤ length bytes.old }
    ensures written { take result bytes.new ≡ take at bytes.old ++ decimal number }
    ensures end { result ≤ at + 16 }
{
    if number < 1 << 32 {
        return write_number(bytes, at, number as u32);
    }
    let high = number / 1000;
    let first = write_number(bytes, at, (high / 1000) as u32);
    let middle = write_three(bytes, first, (high % 1000) as u32);
    write_three(bytes, middle, (number % 1000) as u32)
}

/// Writes the digits of a number of 64 bits from a place on, and answers where they end. What stands before is as it was.
pub(crate) fn write_long(bytes: &mut [u8], at: usize, number: u64) -> usize
    requires room { at + 22 ≤ length bytes.old }
    ensures written { take result bytes.new ≡ take at bytes.old ++ decimal number }
    ensures end { result ≤ at + 22 }
{
    if number < 1_000_000_000_000_000 {
        return write_middle(bytes, at, number);
    }
    let high = number / 1000;
    let first = write_middle(bytes, at, high / 1000);
    let middle = write_three(bytes, first, (high % 1000) as u32);
    write_three(bytes, middle, (number % 1000) as u32)
}
