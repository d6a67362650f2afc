// The practice card for C: a library cannot export to C itself, so that each function that C calls stands here again, with the promise that it
// has in `practice`.
#![tactic(auto)]

ghost use Rattle.std.specs.Prelude.{◌≡◌};
ghost use Rattle.card.specs.Layout.{image_size};
ghost use Rattle.personalise.specs.Personalise.{personalised};
ghost use Rattle.manual.specs.Settle.{holding, settled_by, settled, settle_call};
ghost use Rattle.manual.specs.Settle.{posed_by, asked_for, ask_call, off_of, powered_off};

use manual::Outcome;

#[unsafe(no_mangle)]
pub extern "C" fn practice_ask(
    image: &[u8],
    request: &[u8],
    draw: &[u8],
    questions: &mut [u8],
) -> Outcome
    ensures { posed_by result questions.new
        ≡ asked_for (holding image.now) (ask_call request.now draw.now questions.old) }
{
    practice::practice_ask(image, request, draw, questions)
}

#[unsafe(no_mangle)]
pub extern "C" fn practice_settle(
    image: &[u8],
    request: &[u8],
    draw: &[u8],
    answers: &[u8],
    response: &mut [u8],
    next: &mut [u8],
) -> Outcome
    ensures { settled_by result response.new next.new
        ≡ settled (holding image.now)
        (settle_call request.now draw.now answers.now response.old next.old) }
{
    practice::practice_settle(image, request, draw, answers, response, next)
}

#[unsafe(no_mangle)]
pub extern "C" fn practice_power_off(image: &[u8], next: &mut [u8]) -> Outcome
    ensures { off_of result next.new ≡ powered_off (holding image.now) next.old }
{
    practice::practice_power_off(image, next)
}

#[unsafe(no_mangle)]
pub extern "C" fn practice_personalise(sheet: &[u8], image: &mut [u8]) -> u32
    ensures { (result ≡ (personalised sheet.now image.old).answer)
        × (image.new ≡ (personalised sheet.now image.old).image) }
{
    practice::practice_personalise(sheet, image)
}

#[unsafe(no_mangle)]
pub extern "C" fn practice_image_length() -> u32
    ensures { result ≡ image_size }
{
    practice::practice_image_length()
}
